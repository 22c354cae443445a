//! The signs of phrases.
ghost use Rattle.std.specs.Prelude.{◌≡◌, [], ◌∷◌};
ghost use Rattle.plcs_grammar.specs.Sign.{sign_bytes, sign_of};

/// A sign of phrases.
#[derive(Clone, Copy, Debug, PartialEq, Eq)]
pub enum Sign {
    /// `+`
    Plus,
    /// `-`
    Minus,
    /// `*`
    Times,
    /// `/`
    Divide,
    /// `||`
    Join,
    /// `=`
    Equal,
    /// `^=`
    NotEqual,
    /// `<`
    Less,
    /// `<=`
    LessEqual,
    /// `>`
    Greater,
    /// `>=`
    GreaterEqual,
    /// `&`
    Ampersand,
    /// `|`
    Bar,
    /// `^`
    Caret,
    /// `(`
    OpenParenthesis,
    /// `)`
    CloseParenthesis,
    /// `,`
    Comma,
}

impl Sign {
    /// The sign that is written so, or `None` where none is.
    pub fn read(bytes: &[u8]) -> Option<Sign>
        ensures { result ≡ sign_of bytes.now }
    {
        match bytes {
            [byte] => single_sign(*byte),
            [first, second] => double_sign(*first, *second),
            _ => None,
        }
    }

    /// The bytes that the sign is written as, one or two.
    pub fn bytes(self) -> &'static [u8]
        ensures { result.now ≡ sign_bytes self }
    {
        match self {
            Sign::Plus => b"+",
            Sign::Minus => b"-",
            Sign::Times => b"*",
            Sign::Divide => b"/",
            Sign::Join => b"||",
            Sign::Equal => b"=",
            Sign::NotEqual => b"^=",
            Sign::Less => b"<",
            Sign::LessEqual => b"<=",
            Sign::Greater => b">",
            Sign::GreaterEqual => b">=",
            Sign::Ampersand => b"&",
            Sign::Bar => b"|",
            Sign::Caret => b"^",
            Sign::OpenParenthesis => b"(",
            Sign::CloseParenthesis => b")",
            Sign::Comma => b",",
        }
    }
}

/// The sign that is written as one byte, this one, or `None` where none is.
fn single_sign(byte: u8) -> Option<Sign>
    ensures { result ≡ sign_of (byte ∷ []) }
{
    match byte {
        b'+' => Some(Sign::Plus),
        b'-' => Some(Sign::Minus),
        b'*' => Some(Sign::Times),
        b'/' => Some(Sign::Divide),
        b'=' => Some(Sign::Equal),
        b'<' => Some(Sign::Less),
        b'>' => Some(Sign::Greater),
        b'&' => Some(Sign::Ampersand),
        b'|' => Some(Sign::Bar),
        b'^' => Some(Sign::Caret),
        b'(' => Some(Sign::OpenParenthesis),
        b')' => Some(Sign::CloseParenthesis),
        b',' => Some(Sign::Comma),
        _ => None,
    }
}

/// The sign that is written as two bytes, these, or `None` where none is.
fn double_sign(first: u8, second: u8) -> Option<Sign>
    ensures { result ≡ sign_of (first ∷ second ∷ []) }
{
    match (first, second) {
        (b'|', b'|') => Some(Sign::Join),
        (b'^', b'=') => Some(Sign::NotEqual),
        (b'<', b'=') => Some(Sign::LessEqual),
        (b'>', b'=') => Some(Sign::GreaterEqual),
        _ => None,
    }
}
