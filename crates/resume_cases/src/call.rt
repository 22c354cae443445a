//! The words that cases begin with.

/// What a case on suspended runs asks for, by its first word.
#[derive(Clone, Copy)]
pub(crate) enum Call {
    /// A new program.
    New,
    /// The program of the lines of text.
    Program,
    /// An input.
    Input,
    /// A change of the program.
    Edit,
    /// A new run.
    Run,
    /// Steps of the run.
    Step,
    /// Steps that are taken back.
    Back,
    /// Whether the run may be resumed.
    Ask,
    /// A resumption.
    Resume,
    /// The frames of the run.
    Frames,
    /// The cells of a variable.
    Cells,
    /// What the run wrote.
    Output,
    /// What is left of the input.
    Left,
    /// A program and how far its run goes.
    Scene,
    /// A resumption in the scene, once that was edited.
    After,
}

/// The calls of cases on suspended runs, with the words that these begin with.
pub(crate) static CALLS: [(&'static [u8], Call); 15] = [
    (b"new", Call::New),
    (b"program", Call::Program),
    (b"input", Call::Input),
    (b"edit", Call::Edit),
    (b"run", Call::Run),
    (b"step", Call::Step),
    (b"back", Call::Back),
    (b"ask", Call::Ask),
    (b"resume", Call::Resume),
    (b"frames", Call::Frames),
    (b"cells", Call::Cells),
    (b"output", Call::Output),
    (b"left", Call::Left),
    (b"scene", Call::Scene),
    (b"after", Call::After),
];
