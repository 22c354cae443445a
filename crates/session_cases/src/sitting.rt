//! Sessions on a screen of 12 rows and 40 columns, pressed key by key.

ghost use Rattle.std.specs.Prelude.{◌≡◌, IfSome};
ghost use Rattle.synth_session.specs.SessionView.{IsReadyForKey, plain_session};
ghost use Rattle.synth_session.specs.Tick.{IsRunning, RunFits};

use plcs_base::Counts;
use std::alloc::Global;
use synth_outside::{Files, MemFiles, MemSink};
use synth_session::{Answer, ScreenSize, Session, Tick, running_keys_have_runs, ticks_go_on};
use synth_top::{Key, KeyReader, Keys};

/// As many ticks of one key at most show a step each.
const MOST_TICKS: u32 = 100;

/// A session that is pressed, beside which there are no files.
#[derive(Drop)]
pub struct Sitting {
    pub session: Session<Counts>,
    files: MemFiles,
    reader: KeyReader,
    /// What the last key answered.
    pub answer: Option<Answer>,
    /// All that was painted.
    pub screen: MemSink,
}

impl Sitting {
    /// A sitting over a new program, of which nothing is painted.
    pub fn new(alloc: Global) -> Option<Sitting>
        ensures { IfSome result (λ sitting. IsReadyForKey sitting.session) }
    {
        match opened(alloc, ScreenSize::new(12, 40)) {
            Some(session) => Some(Sitting {
                session,
                files: MemFiles::new(alloc, Vec::new(alloc)),
                reader: KeyReader::new(),
                answer: None,
                screen: MemSink::new(alloc, Vec::new(alloc)),
            }),
            None => None,
        }
    }

    /// Closes the sitting's session, and lets go of all else.
    pub fn close(self) {
        let Sitting {
            session,
            files,
            screen,
            ..
        } = self;
        session.close();
        drop(files);
        drop(screen);
    }

    /// Presses the keys of these bytes in the sitting, the last of which end there.
    pub fn press_all(&mut self, alloc: Global, bytes: &[u8]) -> Option<()>
        requires { IsReadyForKey self.old.session }
        ensures { IsReadyForKey self.new.session }
    {
        self.press_bytes(alloc, bytes)?;
        let last = self.reader.end();
        self.press(alloc, last)
    }

    /// Presses the keys in the sitting that these bytes complete.
    pub fn press_bytes(&mut self, alloc: Global, bytes: &[u8]) -> Option<()>
        requires { IsReadyForKey self.old.session }
        ensures { IsReadyForKey self.new.session }
    {
        for byte in bytes {
            let keys = self.reader.feed(*byte);
            self.press_keys(alloc, keys)?;
        }
        Some(())
    }

    /// Presses these keys in the sitting.
    fn press_keys(&mut self, alloc: Global, keys: Keys) -> Option<()>
        requires { IsReadyForKey self.old.session }
        ensures { IsReadyForKey self.new.session }
    {
        self.press(alloc, keys.first)?;
        self.press(alloc, keys.second)
    }

    /// Presses the key in the sitting, if there is one.
    fn press(&mut self, alloc: Global, key: Option<Key>) -> Option<()>
        requires { IsReadyForKey self.old.session }
        ensures { IsReadyForKey self.new.session }
    {
        if let Some(key) = key {
            let answer = pressed(alloc, &mut self.session, key, &mut self.files)?;
            self.answer = Some(answer);
            if let Answer::Running = answer {
                run_on(alloc, &mut self.session)?;
            }
        }
        Some(())
    }

    /// Paints the screen of the sitting's session behind what was painted.
    pub fn paint(&mut self)
        requires { IsReadyForKey self.old.session }
        ensures { IsReadyForKey self.new.session }
    {
        draw(&mut self.session);
        paint(&mut self.session, &mut self.screen);
    }
}

/// The session of a sitting: over a new program, on a screen of this size.
fn opened(alloc: Global, size: ScreenSize) -> Option<Session<Counts>>
    ensures { IfSome result IsReadyForKey }
{
    match Session::open(alloc, size, None, Vec::new(alloc), &mut Counts::default()) {
        Ok(session) => Some(session),
        Err(_) => None,
    }
}

/// Presses the key in the session of a sitting, and gives what it answers.
fn pressed<F: Files>(
    alloc: Global,
    session: &mut Session<Counts>,
    key: Key,
    files: &mut F,
) -> Option<Answer>
    requires { IsReadyForKey session.old }
    ensures ready { IsReadyForKey session.new }
    ensures running { IfSome result (λ answer. answer ≡ Answer.Running → IsRunning (plain_session session.new)) }
    ensures fits { IfSome result (λ answer. answer ≡ Answer.Running → RunFits (plain_session session.new)) }
{
    running_keys_have_runs();
    session.running_keys_fit();
    match session.press(alloc, key, files, &mut Counts::default()) {
        Ok(answer) => Some(answer),
        Err(_) => None,
    }
}

/// Makes all steps of the run of a sitting's session, whose key was answered so that the run goes on.
fn run_on(alloc: Global, session: &mut Session<Counts>) -> Option<()>
    requires ready { IsReadyForKey session.old }
    requires running { IsRunning (plain_session session.old) }
    requires fits { RunFits (plain_session session.old) }
    ensures { IsReadyForKey session.new }
{
    ticks_go_on();
    for tick in 0..=MOST_TICKS {
        session.steps_are_the_programs();
        match session.tick(alloc, &mut Counts::default()) {
            Ok(Tick::Again) => {}
            Ok(Tick::Over) => return Some(()),
            Err(_) => return None,
        }
    }
    None
}

/// Draws the screen of a sitting's session.
fn draw(session: &mut Session<Counts>)
    requires { IsReadyForKey session.old }
    ensures { IsReadyForKey session.new }
{
    session.draw(&mut Counts::default());
}

/// Paints the screen of a sitting's session.
fn paint(session: &mut Session<Counts>, screen: &mut MemSink)
    requires { IsReadyForKey session.old }
    ensures { IsReadyForKey session.new }
{
    // Where a write failed, less is painted, which the case shows.
    let _ = session.paint(screen);
}
