//! The built-in functions.
ghost use Rattle.std.specs.Prelude.{◌≡◌, bytes_eq, find};
ghost use Rattle.plcs_grammar.specs.Builtin.{builtin_name, builtin_of};

/// A built-in function of the language. Its name is reserved.
#[derive(Clone, Copy, Debug, PartialEq, Eq)]
pub enum Builtin {
    /// `ABS`
    Abs,
    /// `MOD`
    Mod,
    /// `MIN`
    Min,
    /// `MAX`
    Max,
    /// `LENGTH`
    Length,
    /// `SUBSTR`
    Substr,
    /// `INDEX`
    Index,
}

/// The built-in functions whose names have 3 letters.
const NAMED_BY_3: [Builtin; 4] = [Builtin::Abs, Builtin::Mod, Builtin::Min, Builtin::Max];

/// The built-in function whose name has 5 letters.
const NAMED_BY_5: [Builtin; 1] = [Builtin::Index];

/// The built-in functions whose names have 6 letters; no name has another length.
const NAMED_BY_6: [Builtin; 2] = [Builtin::Length, Builtin::Substr];

impl Builtin {
    /// The built-in function that has the name, or `None` where none has. The name is compared with those of its length
    /// alone.
    #[tactic(auto, using(crate::proofs::BuiltinNames::no_builtin))]
    pub fn read(name: &[u8]) -> Option<Builtin>
        ensures { result ≡ builtin_of name.now }
    {
        match name.len() {
            3 => named(name, &NAMED_BY_3),
            5 => named(name, &NAMED_BY_5),
            6 => named(name, &NAMED_BY_6),
            _ => None,
        }
    }

    /// The name of the built-in function, in capitals.
    pub fn name(self) -> &'static [u8]
        ensures { result.now ≡ builtin_name self }
    {
        match self {
            Builtin::Abs => b"ABS",
            Builtin::Mod => b"MOD",
            Builtin::Min => b"MIN",
            Builtin::Max => b"MAX",
            Builtin::Length => b"LENGTH",
            Builtin::Substr => b"SUBSTR",
            Builtin::Index => b"INDEX",
        }
    }
}

/// The first of the built-in functions that has the name, or `None` where none of them has.
fn named(name: &[u8], functions: &[Builtin]) -> Option<Builtin>
    ensures { result ≡ find (λ function. bytes_eq name.now (builtin_name function)) functions.now }
{
    functions
        .iter()
        .copied()
        .find(|function| name == function.name())
}
