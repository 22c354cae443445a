//! The run: keys come in byte by byte, are pressed in their order, and their screens go out.

ghost use Rattle.std.specs.Prelude.{◌≡◌, ◌∷◌, [], option_to_list, IfOk, OnOk, OnErr};
ghost use Rattle.plcs_base.specs.Count.{raised};
ghost use Rattle.screen_window.specs.Paint.{Paint};
ghost use Rattle.screen_window.specs.PlainGrid.{PlainGrid, blank_grid};
ghost use Rattle.screen_window.specs.Screen.{window_rows};
ghost use Rattle.screen_window.specs.Writes.{Writes};
ghost use Rattle.synth_outside.specs.Cause.{HasCause, RisesWith};
ghost use Rattle.synth_outside.specs.Source.{LosesAtMost};
ghost use Rattle.synth_outside.specs.Files.{PlainFiles};
ghost use Rattle.synth_session.specs.CountedKey.{CountsProgram, CountsScreen};
ghost use Rattle.synth_session.specs.SessionScreen.{grid, screen_fetches};
ghost use Rattle.synth_session.specs.PlainSession.{PlainSession};
ghost use Rattle.synth_session.specs.SessionView.{plain_session, shown_grid};
ghost use Rattle.synth_session.specs.Tick.{IsRunning, RunFits};
ghost use Rattle.synth_top.specs.Keys.{keys, listed_keys};
ghost use Rattle.synth_top.specs.Loads.{opening_bill, refusal_told};
ghost use Rattle.synth_top.specs.Private.Loading.{IsInputIfLoaded, IsTreeIfLoaded};
ghost use Rattle.synth_top.specs.Private.PlainForms.{plain_first_loads, plain_options};
ghost use Rattle.synth_top.specs.Private.Pressing.{IsReady, PressesKeys, ReadsByte, ended_as, moment_of};
ghost use Rattle.synth_top.specs.Private.PaintedScreen.{going_after};
ghost use Rattle.synth_top.specs.Private.TicksShown.{MadeTicks};
ghost use Rattle.synth_top.specs.Private.EditorRuns.{EditorRuns, IsOpened, Rescues};
ghost use Rattle.synth_top.specs.WholeRun.{opening};
ghost use Rattle.synth_top.specs.Status.{LeftAs};

use crate::key::{KeyReader, Keys};
use crate::loading::FirstLoads;
use crate::options::Options;
use crate::status::Status;
use file_store::FileRefusal;
use plcs_base::{OutOfMemory, Work};
use screen_window::{write_piece, writes_in_turn};
use std::alloc::Global;
use synth_outside::{Files, Sink, SinkFault, Source, SourceFault};
use synth_session::{Answer, Key, Refusal, Session, Tick, running_keys_have_runs, ticks_go_on};

/// Whether the session of a run goes on.
#[derive(Clone, Copy)]
pub enum Going {
    /// It goes on.
    On,
    /// It ended so.
    Over(Status),
}

impl Going {
    /// The status with which the run of the editor ends: the one with which its session ended, or else this
    /// one.
    fn ended_as(self, status: Status) -> Status
        ensures { result ≡ ended_as self status }
    {
        match self {
            Going::On => status,
            Going::Over(ended) => ended,
        }
    }
}

/// An editing of a program, which takes keys one after the other, and whose screens go out.
pub trait Editing<W: Work> {
    /// The session of the editing.
    ghost session: { Self → PlainSession };

    /// The screen that is shown of it.
    ghost shown: { Self → PlainGrid };

    /// That the editing can take the next key.
    ghost is_ready: { Self → Type 0 };

    /// Starts the run: draws the opening screen, clears the screen that is there and paints it.
    fn start<K: Sink>(&mut self, screen: &mut K, work: &mut W) -> Result<(), SinkFault>
        requires ready { is_ready self.old }
        requires painted { shown self.old ≡ blank_grid (session self.old).size.rows (session self.old).size.cols }
        ensures wrote { Writes (opening (session self.old)) result
            (K.taken screen.old) (K.taken screen.new)
            (K.faults screen.old) (K.faults screen.new) (K.wants screen.old) (K.wants screen.new) }
        ensures ready { is_ready self.new }
        ensures shown { OnOk result (shown self.new ≡ grid (session self.old)) }
        ensures session { session self.new ≡ session self.old }
        ensures counts { CountsScreen (window_rows (session self.old).size.rows)
            (screen_fetches (session self.old)) (W.counts work.old) (W.counts work.new) };

    /// Presses in the run a key that came in, after which its screens go out. A key that ends the session has
    /// none, and one that wants memory does nothing.
    fn press<K: Sink, F: Files>(
        &mut self,
        alloc: Global,
        key: Key,
        screen: &mut K,
        files: &mut F,
        work: &mut W,
    ) -> Going
        requires { is_ready self.old }
        ensures presses { PressesKeys result (key ∷ [])
            (moment_of (session self.old) (shown self.old) (K.taken screen.old) (K.wants screen.old)
            (F.told files.old) (W.counts work.old))
            (moment_of (session self.new) (shown self.new) (K.taken screen.new) (K.wants screen.new)
            (F.told files.new) (W.counts work.new))
            (K.faults screen.old) (K.faults screen.new) }
        ensures ready { is_ready self.new };
}

/// Runs an editing to its end: the opening screen, and then one byte of keys after the other, at most as many
/// as the limit.
pub fn run<E: Editing<W>, S: Source, K: Sink, F: Files, W: Work>(
    alloc: Global,
    options: &Options<'_>,
    editing: &mut E,
    keys: &mut S,
    screen: &mut K,
    files: &mut F,
    work: &mut W,
) -> Status
    requires ready { E.is_ready editing.old }
    requires painted { E.shown editing.old
        ≡ blank_grid (E.session editing.old).size.rows (E.session editing.old).size.cols }
    ensures runs { EditorRuns result (plain_options options.now)
        (record { session = E.session editing.old; files = (F.told files.old).stored })
        (record {
          streams = record {
            left = S.left keys.old;
            reads = S.reads keys.old;
            taken = K.taken screen.old;
            wants = K.wants screen.old;
          };
          files = F.told files.old;
          counts = W.counts work.old;
        })
        (record {
          streams = record {
            left = S.left keys.new;
            reads = S.reads keys.new;
            taken = K.taken screen.new;
            wants = K.wants screen.new;
          };
          files = F.told files.new;
          counts = W.counts work.new;
        })
        (S.leads_to keys.old keys.new) (S.breaks_at keys.old keys.new) (E.session editing.new) }
    ensures ready { E.is_ready editing.new }
    ensures read { RisesWith (result ≡ Status.ReadFault) (S.faults keys.old) (S.faults keys.new) }
    ensures write { RisesWith (result ≡ Status.WriteFault)
        (K.faults screen.old) (K.faults screen.new) }
    ensures source { LeftAs result
        (S.leads_to keys.old keys.new) (S.breaks_at keys.old keys.new) }
{
    match editing.start(screen, work) {
        Ok(()) => {}
        Err(SinkFault::Failed) => return Status::WriteFault,
        Err(SinkFault::OutOfMemory) => return Status::NoMemory,
    }
    let mut reader = KeyReader::new();
    for _ in 0..options.key_limit {
        match read_byte(keys) {
            Ok(Some(byte)) => {
                let given = reader.feed(byte);
                if let Going::Over(status) = press_keys(
                    alloc, given, editing, screen, files, work,
                ) {
                    return status;
                }
            }
            Ok(None) => return finish(alloc, &mut reader, editing, screen, files, work).ended_as(
                Status::Done,
            ),
            Err(SourceFault::Failed) => return Status::ReadFault,
            Err(SourceFault::OutOfMemory) => return Status::NoMemory,
        }
    }
    finish(alloc, &mut reader, editing, screen, files, work).ended_as(Status::KeyLimit)
}

/// At the end of the run, where no byte of keys comes in any more, presses the key that isn't complete.
fn finish<E: Editing<W>, K: Sink, F: Files, W: Work>(
    alloc: Global,
    reader: &mut KeyReader,
    editing: &mut E,
    screen: &mut K,
    files: &mut F,
    work: &mut W,
) -> Going
    requires { E.is_ready editing.old }
    ensures presses { PressesKeys result (keys reader.old)
        (moment_of (E.session editing.old) (E.shown editing.old) (K.taken screen.old) (K.wants screen.old)
        (F.told files.old) (W.counts work.old))
        (moment_of (E.session editing.new) (E.shown editing.new) (K.taken screen.new) (K.wants screen.new)
        (F.told files.new) (W.counts work.new))
        (K.faults screen.old) (K.faults screen.new) }
    ensures ready { E.is_ready editing.new }
{
    let key = reader.end();
    press_if(alloc, key, editing, screen, files, work)
}

/// Presses in the run the keys that one byte completes, in their order.
fn press_keys<E: Editing<W>, K: Sink, F: Files, W: Work>(
    alloc: Global,
    keys: Keys,
    editing: &mut E,
    screen: &mut K,
    files: &mut F,
    work: &mut W,
) -> Going
    requires { E.is_ready editing.old }
    ensures presses { PressesKeys result (listed_keys keys)
        (moment_of (E.session editing.old) (E.shown editing.old) (K.taken screen.old) (K.wants screen.old)
        (F.told files.old) (W.counts work.old))
        (moment_of (E.session editing.new) (E.shown editing.new) (K.taken screen.new) (K.wants screen.new)
        (F.told files.new) (W.counts work.new))
        (K.faults screen.old) (K.faults screen.new) }
    ensures ready { E.is_ready editing.new }
{
    if let Going::Over(status) = press_if(alloc, keys.first, editing, screen, files, work) {
        return Going::Over(status);
    }
    press_if(alloc, keys.second, editing, screen, files, work)
}

/// Presses a key in a run, if there is one.
fn press_if<E: Editing<W>, K: Sink, F: Files, W: Work>(
    alloc: Global,
    key: Option<Key>,
    editing: &mut E,
    screen: &mut K,
    files: &mut F,
    work: &mut W,
) -> Going
    requires { E.is_ready editing.old }
    ensures presses { PressesKeys result (option_to_list key)
        (moment_of (E.session editing.old) (E.shown editing.old) (K.taken screen.old) (K.wants screen.old)
        (F.told files.old) (W.counts work.old))
        (moment_of (E.session editing.new) (E.shown editing.new) (K.taken screen.new) (K.wants screen.new)
        (F.told files.new) (W.counts work.new))
        (K.faults screen.old) (K.faults screen.new) }
    ensures ready { E.is_ready editing.new }
{
    match key {
        Some(key) => editing.press(alloc, key, screen, files, work),
        None => Going::On,
    }
}

/// The editor in a run: its session.
#[derive(Drop)]
pub struct Editor<W> {
    pub session: Session<W>,
}

impl<W: Work> Editor<W> {
    /// The editor at the beginning of the run, before its first screen: over the program that was loaded, or a
    /// new one, with the input that was loaded. It tells of the first load that was refused.
    pub fn open(
        alloc: Global,
        options: &Options<'_>,
        loads: FirstLoads,
        work: &mut W,
    ) -> Result<Self, OutOfMemory>
        requires tree { IsTreeIfLoaded loads.program }
        requires within { IsInputIfLoaded loads.input }
        ensures opened { IfOk result (λ e. IsOpened (plain_options options.now) (plain_first_loads loads) e) }
        ensures counts { CountsProgram (opening_bill (plain_first_loads loads)).checks
            (opening_bill (plain_first_loads loads)).emits (W.counts work.old) (W.counts work.new) }
    {
        let refusal = loads.first_refusal();
        let input = loads.input.bytes(alloc);
        let Ok(session) = Session::open(alloc, options.size, loads.program.loaded(), input, work)
        else {
            return Err(OutOfMemory);
        };
        let mut editor = Editor { session };
        editor.tell(refusal);
        Ok(editor)
    }

    /// Before the run of the editor begins, puts on its message row why a first load was refused, if one was.
    fn tell(&mut self, refusal: Option<FileRefusal>)
        requires { IsReady self.old }
        ensures session { plain_session self.new.session ≡ refusal_told refusal (plain_session self.old.session) }
        ensures ready { IsReady self.new }
        ensures shown { shown_grid self.new.session ≡ shown_grid self.old.session }
    {
        if let Some(refusal) = refusal {
            self.session.show_message(Refusal::File(refusal));
        }
    }

    /// Saves the program where memory ran out; that it can't be saved ends the run no other way.
    pub fn rescue<F: Files>(&self, status: Status, files: &mut F)
        requires { IsReady self.now }
        ensures { Rescues status (plain_session self.now.session)
            (F.told files.old) (F.told files.new) }
    {
        if let Status::NoMemory = status {
            // What came of it the files tell; the status stays want of memory.
            let _ = self.session.rescue(files);
        }
    }

    /// Makes the steps of a key in which the program's run goes on, tick by tick, and paints the screen after each
    /// tick.
    fn make_steps<K: Sink>(&mut self, alloc: Global, screen: &mut K, work: &mut W) -> Going
        requires ready { IsReady self.old }
        requires running { IsRunning (plain_session self.old.session) }
        requires fits { RunFits (plain_session self.old.session) }
        ensures made { (files : PlainFiles) → MadeTicks result
            (moment_of (plain_session self.old.session) (shown_grid self.old.session) (K.taken screen.old)
            (K.wants screen.old) files (W.counts work.old))
            (moment_of (plain_session self.new.session) (shown_grid self.new.session) (K.taken screen.new)
            (K.wants screen.new) files (W.counts work.new)) }
        ensures cause { RisesWith (result ≡ Going.Over Status.WriteFault) (K.faults screen.old) (K.faults screen.new) }
        ensures ready { IsReady self.new }
    {
        loop {
            ticks_go_on();
            self.session.steps_are_the_programs();
            let Ok(tick) = self.session.tick(alloc, work) else {
                return Going::Over(Status::NoMemory);
            };
            if let Going::Over(status) = going_after(self.show(screen, work)) {
                return Going::Over(status);
            }
            if let Tick::Over = tick {
                return Going::On;
            }
        }
    }

    /// Draws the session of the run and paints its screen over the one that is shown.
    fn show<K: Sink>(&mut self, screen: &mut K, work: &mut W) -> Result<(), SinkFault>
        requires { IsReady self.old }
        ensures wrote { Writes
            (Paint (shown_grid self.old.session) (grid (plain_session self.old.session))) result
            (K.taken screen.old) (K.taken screen.new)
            (K.faults screen.old) (K.faults screen.new) (K.wants screen.old) (K.wants screen.new) }
        ensures ready { IsReady self.new }
        ensures shown { OnOk result
            (shown_grid self.new.session ≡ grid (plain_session self.old.session)) }
        ensures session { plain_session self.new.session ≡ plain_session self.old.session }
        ensures counts { CountsScreen (window_rows (plain_session self.old.session).size.rows)
            (screen_fetches (plain_session self.old.session)) (W.counts work.old) (W.counts work.new) }
    {
        self.session.draw(work);
        self.session.paint(screen)
    }
}

impl<W: Work> Editing<W> for Editor<W> {
    ghost session = { λ editor. plain_session editor.session };

    ghost shown = { λ editor. shown_grid editor.session };

    ghost is_ready = { λ editor. IsReady editor };

    #[tactic(auto, unfolding(crate::specs::WholeRun::opening))]
    fn start<K: Sink>(&mut self, screen: &mut K, work: &mut W) -> Result<(), SinkFault> {
        writes_in_turn();
        self.session.draw(work);
        write_piece(screen, b"\x1b[0m\x1b[2J")?;
        self.session.paint(screen)
    }

    fn press<K: Sink, F: Files>(
        &mut self,
        alloc: Global,
        key: Key,
        screen: &mut K,
        files: &mut F,
        work: &mut W,
    ) -> Going {
        running_keys_have_runs();
        self.session.running_keys_fit();
        let Ok(answer) = self.session.press(alloc, key, files, work) else {
            return Going::Over(Status::NoMemory);
        };
        match answer {
            Answer::Quit => Going::Over(Status::Done),
            Answer::Running => self.make_steps(alloc, screen, work),
            Answer::Done | Answer::Refused(_) => going_after(self.show(screen, work)),
        }
    }
}

/// Whether the run goes on after a screen that was painted so.
fn going_after(painted: Result<(), SinkFault>) -> Going
    ensures { result ≡ going_after painted }
{
    match painted {
        Ok(()) => Going::On,
        Err(SinkFault::Failed) => Going::Over(Status::WriteFault),
        Err(SinkFault::OutOfMemory) => Going::Over(Status::NoMemory),
    }
}

/// Reads the next byte of keys for the run; `None` is the end.
fn read_byte<S: Source>(keys: &mut S) -> Result<Option<u8>, SourceFault>
    ensures byte { IfOk result (λ byte. ReadsByte byte (S.left keys.old) (S.left keys.new)) }
    ensures one { S.reads keys.new ≡ raised (S.reads keys.old) }
    ensures lost { OnErr result (LosesAtMost (S.left keys.old) (S.left keys.new) 1) }
    ensures cause { HasCause SourceFault.Failed (S.faults keys.old) (S.faults keys.new) result }
    ensures led { IfOk result (λ _. (first : S) → S.leads_to first keys.old →
        S.leads_to first keys.new) }
    ensures broke { OnErr result ((first : S) → S.leads_to first keys.old →
        S.breaks_at first keys.new) }
{
    let mut buf = [0u8; 1];
    let count = keys.read(&mut buf)?;
    if count == 0 {
        return Ok(None);
    }
    Ok(Some(buf[0]))
}
