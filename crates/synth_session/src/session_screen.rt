//! The screen of a session, with the prompt, drawn and painted.
ghost use Rattle.std.specs.Prelude.{◌≡◌, ◌+◌, ◌*◌, ◌≤◌, ◌++◌, IfSome, length, map, option_map, take, OnErr, OnOk};
ghost use Rattle.std.specs.Option.{option_map_or};
ghost use Rattle.arrayvec.specs.ArrayVec.{array_vec_len};
ghost use Rattle.plcs_base.specs.PlainCounts.{LaysAtMost};
ghost use Rattle.template_tree.specs.Checks.Marks.{Marks};
ghost use Rattle.template_tree.specs.Programs.PlainTree.{roomless_tree};
ghost use Rattle.template_tree.specs.Programs.Limit.{most_slots};
ghost use Rattle.template_tree.specs.Positions.Stop.{IsStop, plain_stop};
ghost use Rattle.template_tree.specs.Programs.Tree.{IsTree};
ghost use Rattle.plcs_machine.specs.Fetched.{FetchesBy};
ghost use Rattle.screen_window.specs.Paint.{Paint};
ghost use Rattle.screen_window.specs.Screen.{Screen, window_rows};
ghost use Rattle.screen_window.specs.Writes.{Writes};
ghost use Rattle.synth_session.specs.declared.code_rows.TheConstants.{MOST_CODE_ROWS};
ghost use Rattle.synth_session.specs.declared.session_screen.TheConstants.{LONGEST_PROMPT};
ghost use Rattle.synth_session.specs.CountedKey.{CountsScreen};
ghost use Rattle.synth_session.specs.ProgramCode.{code_rows};
ghost use Rattle.synth_session.specs.RefusalText.{shown_message};
ghost use Rattle.synth_session.specs.SessionScreen.{grid, prompt, screen_fetches, sort_word, word_at};
ghost use Rattle.synth_session.specs.SessionView.{Agrees, HasCode, HasProgramCode, IsReadyForKey, IsSession, next_grid, plain_session, shown_grid};

use crate::code_command::code_span;
use crate::code_rows::CodeRows;
use crate::program::Program;
use crate::screens::Screens;
use crate::session::Session;
use arrayvec::ArrayVec;
use plcs_base::{Place, Work};
use plcs_grammar::Sort;
use screen_window::View;
use session_edit::wanted;
use session_words::{Message, MessageText};
use synth_outside::{Sink, SinkFault};
use template_tree::{Stop, Tree, checks_ignore_room_and_elision, room_is_not_shown};

impl<W: Work> Session<W> {
    /// Draws the session's screen that is to be painted next. It takes no memory, and lays no more lines than
    /// the window has rows.
    #[tactic(auto, unfolding(crate::specs::SessionScreen::grid))]
    pub fn draw(&mut self, work: &mut W)
        requires session { IsSession self.old }
        requires code { HasProgramCode self.old }
        ensures session { IsSession self.new }
        ensures code { HasProgramCode self.new }
        ensures run { self.new.run ≡ self.old.run }
        ensures ready { IsReadyForKey self.old → IsReadyForKey self.new }
        ensures next { next_grid self.new ≡ grid (plain_session self.old) }
        ensures shown { shown_grid self.new ≡ shown_grid self.old }
        ensures same { plain_session self.new ≡ plain_session self.old }
        ensures counts { CountsScreen (window_rows (plain_session self.old).size.rows)
            (screen_fetches (plain_session self.old)) (W.counts work.old) (W.counts work.new) }
    {
        let prompt = prompt(&self.program.tree, &self.stop);
        let text = shown_text(self.message);
        let shown = shown_code(
            &mut self.code_rows,
            &self.program,
            &self.stop,
            self.code_from,
            self.screens.window_rows(),
            work,
        );
        draw_on(
            &mut self.screens,
            &mut self.program,
            &self.stop,
            self.top,
            self.run.shown_place(),
            self.run.output(),
            text.as_bytes(),
            prompt.as_slice(),
            self.typed.as_slice(),
            self.code_rows.first(shown),
            work,
        );
    }

    /// Paints the session's screen that was drawn last over the one that was painted last.
    pub fn paint<K: Sink>(&mut self, sink: &mut K) -> Result<(), SinkFault>
        requires { IsSession self.old }
        ensures session { IsSession self.new }
        ensures ready { IsReadyForKey self.old → IsReadyForKey self.new }
        ensures wrote { Writes (Paint (shown_grid self.old) (next_grid self.old)) result
            (K.taken sink.old) (K.taken sink.new)
            (K.faults sink.old) (K.faults sink.new) (K.wants sink.old) (K.wants sink.new) }
        ensures shown { OnOk result (shown_grid self.new ≡ next_grid self.old) }
        ensures failed { OnErr result (shown_grid self.new ≡ shown_grid self.old) }
        ensures same { plain_session self.new ≡ plain_session self.old }
    {
        self.screens.paint(sink)
    }
}

/// Fills the first rows, at most so many, with the code of the node at the stop from the instruction of this number on, if
/// code is shown, and tells how many rows are filled.
fn shown_code<W: Work>(
    filled: &mut CodeRows,
    program: &Program<W>,
    stop: &Stop,
    from: Option<u32>,
    rows: u16,
    work: &mut W,
) -> Option<usize>
    requires agrees { Agrees program.now }
    requires code { HasCode program.now }
    requires stop { IsStop (roomless_tree program.now.tree).items (plain_stop stop.now) }
    requires few { rows ≤ MOST_CODE_ROWS }
    ensures rows { option_map (λ count. take count filled.new) result
        ≡ option_map (code_rows rows (roomless_tree program.now.tree) (plain_stop stop.now)) from }
    ensures few { IfSome result (λ count. count ≤ length filled.new) }
    ensures counted { FetchesBy
        (option_map_or length (option_map (code_rows rows (roomless_tree program.now.tree) (plain_stop stop.now)) from) 0)
        (W.counts work.old) (W.counts work.new) }
{
    match from {
        Some(from) => {
            let (start, count) = code_span(program, stop);
            Some(filled.fill(&program.dependents.code, start, count, from, rows, work))
        }
        None => None,
    }
}

/// The text that the screen shows for the message of a session, or none.
fn shown_text(message: Option<Message>) -> MessageText
    ensures { result ≡ shown_message message }
{
    match message {
        Some(message) => message.text(),
        None => MessageText::none(),
    }
}

/// Draws the screen of a session as the one that is to be painted next: its program, and these texts in the
/// lowest rows. Lines of the program that are laid are held.
fn draw_on<'a, W: Work>(
    screens: &mut Screens,
    program: &mut Program<W>,
    stop: &'a Stop,
    top: u32,
    run_place: Option<Place>,
    output: &'a [u8],
    message: &'a [u8],
    prompt: &'a [u8],
    typed: &'a [u8],
    code: Option<&'a [Vec<u8>]>,
    work: &mut W,
)
    requires agrees { Agrees program.old }
    requires top { top ≤ 4 * most_slots }
    ensures next { screens.new.next ≡ Screen screens.old.shown.rows screens.old.shown.cols (record {
      items = (roomless_tree program.old.tree).items;
      marks = Marks (roomless_tree program.old.tree).items;
      stop = plain_stop stop.entry.now;
      top = top;
      run_place = run_place;
      output = output.entry.now;
      message = message.entry.now;
      prompt = prompt.entry.now;
      typed = typed.entry.now;
      code = option_map (λ rows. map (λ text. text.items) rows.now) code.entry;
    }) }
    ensures shown { screens.new.shown ≡ screens.old.shown }
    ensures agrees { Agrees program.new }
    ensures tree { program.new.tree ≡ program.old.tree }
    ensures dependents { program.new.dependents ≡ program.old.dependents }
    ensures counts { LaysAtMost (window_rows screens.old.shown.rows) (W.counts work.old) (W.counts work.new) }
{
    checks_ignore_room_and_elision();
    let view = View {
        tree: &program.tree,
        layout: &program.dependents.layout,
        marks: &program.dependents.marks,
        stop,
        top,
        run_place,
        output,
        message,
        prompt,
        typed,
        code,
    };
    screens.draw(&mut program.lines, &view, work);
}

/// How many bytes a prompt has at most.
const LONGEST_PROMPT: usize = 16;

/// The prompt of a session: what is asked for at its cursor.
#[tactic(auto, unfolding(crate::specs::SessionScreen::prompt))]
fn prompt(tree: &Tree, stop: &Stop) -> ArrayVec<u8, LONGEST_PROMPT>
    requires tree { IsTree tree.now }
    requires stop { IsStop (roomless_tree tree.now).items (plain_stop stop.now) }
    ensures { result.items ≡ prompt (roomless_tree tree.now) (plain_stop stop.now) }
{
    room_is_not_shown();
    let mut text = ArrayVec::new();
    put(&mut text, prompt_word(tree, stop));
    put(&mut text, b"> ");
    text
}

/// The prompt's word for what stands at the stop.
fn prompt_word(tree: &Tree, stop: &Stop) -> &'static [u8]
    requires tree { IsTree tree.now }
    requires stop { IsStop (roomless_tree tree.now).items (plain_stop stop.now) }
    ensures word { result.now ≡ word_at (roomless_tree tree.now) (plain_stop stop.now) stop.now.part }
    ensures short { length result.now ≤ 11 }
{
    room_is_not_shown();
    match stop.part {
        None => match tree.node(&stop.path) {
            Some(node) => sort_word(node.kind().row().sort),
            None => b"",
        },
        Some(_) => match wanted(tree, stop) {
            Some(category) => category.placeholder_word(),
            None => b"",
        },
    }
}

/// The prompt's word for a node of the sort.
fn sort_word(sort: Sort) -> &'static [u8]
    ensures word { result.now ≡ sort_word sort }
    ensures short { length result.now ≤ 11 }
{
    match sort {
        Sort::Main => b"main",
        Sort::Procedure => b"procedure",
        Sort::Declaration => b"declaration",
        Sort::Statement => b"statement",
    }
}

/// Appends bytes to a prompt; they have to fit.
fn put(text: &mut ArrayVec<u8, LONGEST_PROMPT>, bytes: &[u8])
    requires { array_vec_len text.old + length bytes.now ≤ LONGEST_PROMPT }
    ensures { text.new.items ≡ text.old.items ++ bytes.now }
{
    match text.try_extend_from_slice(bytes) {
        Ok(()) => {}
        Err(_) => unreachable!(),
    }
}
