//! The instructions of kept code, found by their numbers.
ghost use Rattle.std.specs.Prelude.{◌≡◌, ◌<◌, ◌++◌, Some, length, slice_get};
ghost use Rattle.plcs_code.specs.Gen.{codes_joined};
ghost use Rattle.code_patch.specs.CodeForest.{kept_codes};
ghost use Rattle.code_patch.specs.Private.PlainCodeNode.{instrs_behind, instrs_inside, kept_node_code};

use crate::code_node::CodeNode;
use plcs_code::Emitted;

impl<W> CodeNode<W> {
    /// The instruction of this number in the code of the node, counted from 0.
    #[cycle(instr)]
    pub(crate) fn instr(&self, at: u32) -> &Emitted<W>
        requires { at < length (kept_node_code self.now) }
        ensures { Some result.now ≡ slice_get (kept_node_code self.now) at }
    {
        let own = self.own.before().length();
        if at < own {
            return self.own.before().get(at);
        }
        let before = self.length_before();
        if at < before {
            return self.jumps.ahead.get(at - own);
        }
        self.instr_inside(at - before)
    }

    /// The instruction of this number from the code of the first node inside on.
    #[cycle(instr)]
    pub(crate) fn instr_inside(&self, at: u32) -> &Emitted<W>
        requires { at < length (instrs_inside self.now) }
        ensures { Some result.now ≡ slice_get (instrs_inside self.now) at }
    {
        let first = self.lengths.before(1);
        if at < first {
            return self.instr_of_child(at);
        }
        let between = self.jumps.between.length();
        if at - first < between {
            return self.jumps.between.get(at - first);
        }
        self.instr_of_child(at - between)
    }

    /// The instruction of this number in the codes of the nodes inside, one behind the other, and what stands behind
    /// them.
    #[cycle(instr)]
    fn instr_of_child(&self, at: u32) -> &Emitted<W>
        requires { at < length (codes_joined (kept_codes self.now.inner) ++ instrs_behind self.now) }
        ensures { Some result.now ≡ slice_get (codes_joined (kept_codes self.now.inner) ++ instrs_behind self.now) at }
    {
        let Some(position) = self.lengths.find(at) else {
            return self.instr_behind(at - self.lengths.total());
        };
        let Some(child) = self.inner.get(position.index) else {
            unreachable!()
        };
        child.instr(position.rest)
    }

    /// The instruction of this number behind the codes of the nodes inside.
    fn instr_behind(&self, at: u32) -> &Emitted<W>
        requires { at < length (instrs_behind self.now) }
        ensures { Some result.now ≡ slice_get (instrs_behind self.now) at }
    {
        let own = self.own.behind().length();
        if at < own {
            return self.own.behind().get(at);
        }
        self.jumps.back.get(at - own)
    }
}
