//! The command that shows code, and the whole code as text.
ghost use Rattle.std.specs.Prelude.{◌≡◌, length};
ghost use Rattle.plcs_base.specs.Put.{PutsAll};
ghost use Rattle.plcs_machine.specs.Fetched.{FetchesBy};
ghost use Rattle.template_tree.specs.Positions.Stop.{IsStop, plain_stop};
ghost use Rattle.template_tree.specs.Programs.PlainTree.{roomless_tree};
ghost use Rattle.code_patch.specs.CodeForest.{told_code};
ghost use Rattle.synth_session.specs.CodeCommand.{code_outcome};
ghost use Rattle.synth_session.specs.ProgramCode.{code_at, code_length, code_text, instrs_in};
ghost use Rattle.synth_session.specs.Private.MemorylessKey.{HasOutcome};
ghost use Rattle.synth_session.specs.SessionView.{Agrees, HasCode, HasProgramCode, IsReadyForKey, IsSession, plain_session};

use crate::answer::{Answer, Refusal};
use crate::code_rows::put_code_line;
use crate::program::Program;
use crate::session::Session;
use plcs_base::{ByteOut, Work};
use plcs_code::{CodeView, spans_hold_code};
use template_tree::{Stop, room_is_not_shown};

impl<W: Work> Session<W> {
    /// Does what `.code` asks for: shows the code of the node at the cursor from the instruction of this number on.
    pub(crate) fn show_code(&mut self, from: u32) -> Answer
        requires ready { IsReadyForKey self.old }
        ensures { HasOutcome (code_outcome (plain_session self.old) from) self.old self.new result }
    {
        let (_, count) = code_span(&self.program, &self.stop);
        if from >= count {
            return self.refuse(Refusal::WrongArgument);
        }
        self.code_from = Some(from);
        self.accept_line()
    }

    /// Puts the whole code of the session's program, an instruction a line, as `.code` shows them; each is counted as
    /// fetched. It takes no memory.
    pub fn code_text<O: ByteOut>(&self, out: &mut O, work: &mut W)
        requires session { IsSession self.now }
        requires code { HasProgramCode self.now }
        ensures text { PutsAll O.puts out.old (code_text (plain_session self.now).tree) out.new }
        ensures counted { FetchesBy (code_length (plain_session self.now).tree)
            (W.counts work.old) (W.counts work.new) }
    {
        let code = &self.program.dependents.code;
        for address in 0..code.length() {
            put_code_line(address, code.fetch(address, work).instr(), out);
            out.put(b'\n');
        }
    }
}

/// Where the code of the node at the stop begins, and how many instructions it has: none where the node has no code.
pub(crate) fn code_span<W: Work>(program: &Program<W>, stop: &Stop) -> (u32, u32)
    requires agrees { Agrees program.now }
    requires code { HasCode program.now }
    requires stop { IsStop (roomless_tree program.now.tree).items (plain_stop stop.now) }
    ensures span { instrs_in (told_code program.now.dependents.code.items) (result.0, result.1)
        ≡ code_at (roomless_tree program.now.tree) (plain_stop stop.now) }
    ensures count { result.1 ≡ length (code_at (roomless_tree program.now.tree) (plain_stop stop.now)) }
{
    room_is_not_shown();
    spans_hold_code();
    let Some(node) = program.tree.node(&stop.path) else {
        return (0, 0);
    };
    match CodeView::<W>::span(&program.dependents.code, node.slot()) {
        Some(span) => span,
        None => (0, 0),
    }
}
