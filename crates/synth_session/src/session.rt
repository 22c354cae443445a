//! The session: the program that is edited, with the cursor, the window, the typed line, the clips and the
//! program's input.
ghost use Rattle.std.specs.Prelude.{◌≡◌, ◌≤◌, [], ◌∷◌, None, IfOk, IfSome, length, option_map};
ghost use Rattle.plcs_base.specs.Put.{PutsAll};
ghost use Rattle.template_tree.specs.Listings.Listing.{Listing};
ghost use Rattle.template_tree.specs.Programs.PlainTree.{roomless_tree};
ghost use Rattle.template_tree.specs.Programs.Slots.{count};
ghost use Rattle.template_tree.specs.Positions.Stop.{IsStop, plain_stop};
ghost use Rattle.template_tree.specs.Programs.Tree.{IsTree};
ghost use Rattle.template_tree.specs.Programs.NewTree.{new_tree};
ghost use Rattle.file_store.specs.Limit.{longest_input};
ghost use Rattle.screen_window.specs.PlainGrid.{blank_grid};
ghost use Rattle.synth_session.specs.CheckedPhrases.{phrase_count};
ghost use Rattle.synth_session.specs.CountedKey.{CountsProgram};
ghost use Rattle.synth_session.specs.ProgramCode.{code_length};
ghost use Rattle.synth_session.specs.KeyOutcome.{acceptance_outcome, line_acceptance_outcome, line_notice_outcome, refusal_outcome};
ghost use Rattle.synth_session.specs.OpenedSession.{opened_session, session_over, stop_at_first, tree_at_first};
ghost use Rattle.synth_session.specs.RefusalText.{refusal_text};
ghost use Rattle.synth_session.specs.SessionScreen.{run_output};
ghost use Rattle.synth_session.specs.Window.{with_cursor_seen};
ghost use Rattle.synth_session.specs.Private.MemorylessKey.{HasOutcome};
ghost use Rattle.synth_session.specs.SessionView.{Agrees, HasCode, HasFittingEdits, HasFittingRun, HasProgramCode, IsPlaced, IsReadyForKey, IsSession, next_grid, plain_session, shown_grid};

use crate::answer::{Answer, Refusal};
use crate::code_rows::CodeRows;
use crate::held_run::HeldRun;
use crate::program::Program;
use crate::program_input::ProgramInput;
use crate::screens::Screens;
use crate::size::ScreenSize;
use crate::typed_line::LINE_LIMIT;
use crate::window::top_showing;
use arrayvec::ArrayVec;
use clip_store::Clips;
use cursor_moves::top;
use edit_undo::EditRing;
use plcs_base::{ByteOut, OutOfMemory, Work};
use session_words::{Message, Notice};
use std::alloc::Global;
use template_tree::{Path, Stop, Tree, room_is_not_shown};

/// A session: the program that is edited, with all that its screen and the next key depend on. Contracts see it
/// as plain data; the conditions between its parts are kept by each call.
#[derive(Drop)]
pub struct Session<W> {
    pub(crate) program: Program<W>,
    pub(crate) stop: Stop,
    pub(crate) top: u32,
    pub(crate) typed: ArrayVec<u8, LINE_LIMIT>,
    pub(crate) clips: Clips,
    pub(crate) input: ProgramInput,
    pub(crate) trace: bool,
    pub(crate) message: Option<Message>,
    pub(crate) code_from: Option<u32>,
    pub(crate) run: HeldRun,
    pub(crate) asked: u32,
    pub(crate) made: u32,
    pub(crate) edits: EditRing,
    pub(crate) screens: Screens,
    pub(crate) code_rows: CodeRows,
}

/// What a session begins with beside its program: blank screens, and nothing that is held.
#[derive(Drop)]
struct Blank {
    screens: Screens,
    code_rows: CodeRows,
    run: HeldRun,
    clips: Clips,
    edits: EditRing,
}

impl Blank {
    /// Blank screens of this size, and nothing that is held.
    fn new(alloc: Global, size: ScreenSize) -> Result<Blank, OutOfMemory>
        ensures shown { IfOk result (λ blank. blank.screens.shown ≡ blank_grid size.rows size.cols) }
        ensures next { IfOk result (λ blank. blank.screens.next ≡ blank_grid size.rows size.cols) }
        ensures run { IfOk result (λ blank. blank.run.run ≡ None) }
        ensures clips { IfOk result (λ blank. blank.clips.pairs ≡ []) }
        ensures edits { IfOk result (λ blank. blank.edits ≡ []) }
    {
        match Screens::new(alloc, size) {
            Ok(screens) => match CodeRows::new(alloc) {
                Ok(code_rows) => match nothing_held(alloc) {
                    Ok((run, clips, edits)) => Ok(Blank {
                        screens,
                        code_rows,
                        run,
                        clips,
                        edits,
                    }),
                    Err(OutOfMemory) => {
                        drop(code_rows);
                        drop(screens);
                        Err(OutOfMemory)
                    }
                },
                Err(OutOfMemory) => {
                    drop(screens);
                    Err(OutOfMemory)
                }
            },
            Err(OutOfMemory) => Err(OutOfMemory),
        }
    }
}

/// No run, no clips and no edits that can be undone.
fn nothing_held(alloc: Global) -> Result<(HeldRun, Clips, EditRing), OutOfMemory>
    ensures run { IfOk result (λ held. held.0.run ≡ None) }
    ensures clips { IfOk result (λ held. held.1.pairs ≡ []) }
    ensures edits { IfOk result (λ held. held.2 ≡ []) }
{
    match HeldRun::new(alloc) {
        Ok(run) => match Clips::new(alloc) {
            Ok(clips) => match EditRing::new(alloc) {
                Ok(edits) => Ok((run, clips, edits)),
                Err(OutOfMemory) => {
                    drop(clips);
                    drop(run);
                    Err(OutOfMemory)
                }
            },
            Err(OutOfMemory) => {
                drop(run);
                Err(OutOfMemory)
            }
        },
        Err(OutOfMemory) => Err(OutOfMemory),
    }
}

impl<W: Work> Session<W> {
    /// A session over the program, or over a new one, on a screen of this size, with this input of the
    /// program. The cursor stands at the new program's hole for a statement, or at main of a program that is
    /// given. Both screens are blank.
    #[tactic(auto, unfolding(crate::specs::OpenedSession::opened_session))]
    pub fn open(
        alloc: Global,
        size: ScreenSize,
        tree: Option<Tree>,
        input: Vec<u8>,
        work: &mut W,
    ) -> Result<Session<W>, OutOfMemory>
        requires tree { IfSome tree IsTree }
        requires input { length input.items ≤ longest_input }
        ensures session { IfOk result (λ session. IsReadyForKey session) }
        ensures opened { IfOk result (λ session.
            plain_session session ≡ opened_session size (option_map roomless_tree tree) input.items) }
        ensures shown { IfOk result (λ session. shown_grid session ≡ blank_grid size.rows size.cols) }
        ensures next { IfOk result (λ session. next_grid session ≡ blank_grid size.rows size.cols) }
        ensures counts { CountsProgram (phrase_count (tree_at_first (option_map roomless_tree tree)))
            (code_length (tree_at_first (option_map roomless_tree tree))) (W.counts work.old) (W.counts work.new) }
    {
        match tree {
            Some(tree) => {
                let stop = top(&tree);
                Session::begin(alloc, size, tree, stop, input, work)
            }
            None => match new_tree(alloc) {
                Ok(tree) => Session::begin(alloc, size, tree, new_stop(), input, work),
                Err(OutOfMemory) => {
                    drop(input);
                    Err(OutOfMemory)
                }
            },
        }
    }

    /// A session over the tree, with the cursor at the stop, and with this input.
    fn begin(
        alloc: Global,
        size: ScreenSize,
        tree: Tree,
        stop: Stop,
        input: Vec<u8>,
        work: &mut W,
    ) -> Result<Session<W>, OutOfMemory>
        requires tree { IsTree tree }
        requires stop { IsStop (roomless_tree tree).items (plain_stop stop) }
        requires input { length input.items ≤ longest_input }
        ensures session { IfOk result (λ session. IsReadyForKey session) }
        ensures opened { IfOk result (λ session.
            plain_session session ≡ session_over size (roomless_tree tree) (plain_stop stop) input.items) }
        ensures shown { IfOk result (λ session. shown_grid session ≡ blank_grid size.rows size.cols) }
        ensures next { IfOk result (λ session. next_grid session ≡ blank_grid size.rows size.cols) }
        ensures counts { CountsProgram (phrase_count (roomless_tree tree)) (code_length (roomless_tree tree))
            (W.counts work.old) (W.counts work.new) }
    {
        match Blank::new(alloc, size) {
            Ok(blank) => match Program::new(alloc, tree, work) {
                Ok(program) => Ok(Session::over(program, stop, input, blank)),
                Err(OutOfMemory) => {
                    drop(blank);
                    drop(input);
                    drop(stop);
                    Err(OutOfMemory)
                }
            },
            Err(OutOfMemory) => {
                drop(input);
                drop(stop);
                drop(tree);
                Err(OutOfMemory)
            }
        }
    }

    /// A session over the program, with the cursor at the stop, with this input, and with nothing held yet.
    fn over(program: Program<W>, stop: Stop, input: Vec<u8>, blank: Blank) -> Session<W>
        requires agrees { Agrees program }
        requires code { HasCode program }
        requires stop { IsStop (roomless_tree program.tree).items (plain_stop stop) }
        requires input { length input.items ≤ longest_input }
        requires run { blank.run.run ≡ None }
        requires clips { blank.clips.pairs ≡ [] }
        requires edits { blank.edits ≡ [] }
        ensures session { IsReadyForKey result }
        ensures opened { plain_session result
            ≡ session_over (record { rows = blank.screens.shown.rows; cols = blank.screens.shown.cols })
            (roomless_tree program.tree) (plain_stop stop) input.items }
        ensures shown { shown_grid result ≡ blank.screens.shown }
        ensures next { next_grid result ≡ blank.screens.next }
    {
        let mut session = Session {
            program,
            stop,
            top: 0,
            typed: ArrayVec::new(),
            clips: blank.clips,
            input: ProgramInput::new(input),
            trace: false,
            message: None,
            code_from: None,
            run: blank.run,
            asked: 0,
            made: 0,
            edits: blank.edits,
            screens: blank.screens,
            code_rows: blank.code_rows,
        };
        // No key was pressed that this could answer: the window comes to follow the cursor.
        let _ = session.accept();
        session
    }

    /// How many slots of the session's program are live. It takes no memory.
    pub fn slots(&self) -> u32
        requires { IsSession self.now }
        ensures { result ≡ count (plain_session self.now).tree.items }
    {
        room_is_not_shown();
        self.program.tree.slots()
    }

    /// How many steps the newest key of a run made, and 0 before the first one. It takes no memory.
    pub fn steps(&self) -> u32
        ensures { result ≡ (plain_session self.now).made }
    {
        self.made
    }

    /// What the run wrote, or nothing where none stands. It takes no memory.
    pub fn output(&self) -> &[u8]
        ensures { result.now ≡ run_output (plain_session self.now).run }
    {
        self.run.output()
    }

    /// Puts the listing of the session's program, with elided refinements too. It takes no memory.
    pub fn listing<O: ByteOut>(&self, out: &mut O)
        requires { IsSession self.now }
        ensures { PutsAll O.puts out.old (Listing (plain_session self.now).tree.items) out.new }
    {
        room_is_not_shown();
        self.program.tree.put_listing(out);
    }

    /// Shows a refusal as the message of the session. It takes no memory.
    pub fn show_message(&mut self, refusal: Refusal)
        requires { IsSession self.old }
        ensures session { IsSession self.new }
        ensures ready { IsReadyForKey self.old → IsReadyForKey self.new }
        ensures message { plain_session self.new ≡ record (plain_session self.old) { message = refusal_text refusal } }
        ensures shown { shown_grid self.new ≡ shown_grid self.old }
        ensures next { next_grid self.new ≡ next_grid self.old }
    {
        self.message = refusal.message();
    }

    /// Closes the session, and lets go of all that it holds.
    pub fn close(self) {
        drop(self);
    }
}

impl<W: Work> Session<W> {
    /// Refuses a key of the session, which changes the message alone.
    pub(crate) fn refuse(&mut self, why: Refusal) -> Answer
        requires { IsReadyForKey self.old }
        ensures { HasOutcome (refusal_outcome (plain_session self.old) why) self.old self.new result }
    {
        self.message = why.message();
        Answer::Refused(why)
    }

    /// The session accepts a key: it shows no message, and its window follows the cursor.
    pub(crate) fn accept(&mut self) -> Answer
        requires agrees { Agrees self.old.program }
        requires placed { IsPlaced (plain_session self.old) }
        requires code { HasProgramCode self.old }
        requires run { HasFittingRun self.old }
        requires edits { HasFittingEdits self.old }
        ensures { HasOutcome (acceptance_outcome (plain_session self.old)) self.old self.new result }
    {
        self.follow();
        self.message = None;
        Answer::Done
    }

    /// Lets the window of the session follow the cursor.
    pub(crate) fn follow(&mut self)
        requires agrees { Agrees self.old.program }
        requires placed { IsPlaced (plain_session self.old) }
        ensures session { IsSession self.new }
        ensures seen { plain_session self.new ≡ with_cursor_seen (plain_session self.old) }
        ensures program { self.new.program ≡ self.old.program }
        ensures edits { self.new.edits ≡ self.old.edits }
        ensures run { self.new.run ≡ self.old.run }
        ensures screens { self.new.screens ≡ self.old.screens }
    {
        let line = self
            .program
            .dependents
            .layout
            .line_of(&self.program.tree, &self.stop);
        self.top = top_showing(self.screens.window_rows(), self.top, line);
    }

    /// Accepts a key of the session that took the whole typed line.
    pub(crate) fn accept_line(&mut self) -> Answer
        requires agrees { Agrees self.old.program }
        requires placed { IsPlaced (plain_session self.old) }
        requires code { HasProgramCode self.old }
        requires run { HasFittingRun self.old }
        requires edits { HasFittingEdits self.old }
        ensures { HasOutcome (line_acceptance_outcome (plain_session self.old)) self.old self.new result }
    {
        self.typed.clear();
        self.accept()
    }

    /// Accepts a key of the session that took the whole typed line, and tells this notice.
    pub(crate) fn accept_line_with(&mut self, notice: Notice) -> Answer
        requires agrees { Agrees self.old.program }
        requires placed { IsPlaced (plain_session self.old) }
        requires code { HasProgramCode self.old }
        requires run { HasFittingRun self.old }
        requires edits { HasFittingEdits self.old }
        ensures { HasOutcome (line_notice_outcome (plain_session self.old) notice) self.old self.new result }
    {
        let answer = self.accept_line();
        self.message = Some(Message::Notice(notice));
        answer
    }
}

/// The new program with which a session is opened.
fn new_tree(alloc: Global) -> Result<Tree, OutOfMemory>
    ensures tree { IfOk result IsTree }
    ensures new { IfOk result (λ tree. roomless_tree tree ≡ new_tree) }
    ensures stop { IfOk result (λ tree. IsStop (roomless_tree tree).items (stop_at_first None)) }
{
    room_is_not_shown();
    Tree::new(alloc)
}

/// The stop of a session over the new program: that of its hole for a statement.
fn new_stop() -> Stop
    ensures path { result.path.items ≡ 0 ∷ 1 ∷ [] }
    ensures part { result.part ≡ None }
{
    let mut path = Path::new();
    path.push(0);
    path.push(1);
    Stop { path, part: None }
}
