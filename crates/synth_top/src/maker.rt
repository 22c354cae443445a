//! The maker: the keys that make a program of so many statements and run it are pressed on its session, without a screen.

ghost use Rattle.std.specs.Prelude.{◌≡◌, IfOk, OnErr};
ghost use Rattle.synth_outside.specs.Cause.{RisesWith};
ghost use Rattle.synth_session.specs.CountedKey.{CountsProgram};
ghost use Rattle.synth_session.specs.CheckedPhrases.{phrase_count};
ghost use Rattle.synth_session.specs.ProgramCode.{code_length};
ghost use Rattle.synth_session.specs.SessionView.{plain_session};
ghost use Rattle.synth_session.specs.Tick.{IsRunning, RunFits};
ghost use Rattle.template_tree.specs.Programs.NewTree.{new_tree};
ghost use Rattle.synth_top.specs.Making.{MadeAs, PartMade, made_from};
ghost use Rattle.synth_top.specs.Private.MakingKeys.{CanPress, IsMade, state_of};
ghost use Rattle.synth_top.specs.Private.MakingTicks.{MakesTicks};
ghost use Rattle.synth_top.specs.Private.WrittenSummary.{written_as};

use crate::making::{Making, press_all};
use crate::options::{USUAL_COLS, USUAL_ROWS};
use crate::status::Status;
use crate::summary::write_summary;
use plcs_base::{OutOfMemory, Work};
use std::alloc::Global;
use synth_outside::{MemFiles, Sink, SinkFault};
use synth_session::{Answer, Key, ScreenSize, Session, Tick, running_keys_have_runs, ticks_go_on};

/// Makes a program of so many statements, by the keys that a person would press for it, runs it, and writes a summary
/// of it.
pub fn make<K: Sink, W: Work>(alloc: Global, number: u32, screen: &mut K, work: &mut W) -> Status
    ensures made { MadeAs result number
        (record { taken = K.taken screen.old; wants = K.wants screen.old; counts = W.counts work.old })
        (record { taken = K.taken screen.new; wants = K.wants screen.new; counts = W.counts work.new }) }
    ensures cause { RisesWith (result ≡ Status.WriteFault) (K.faults screen.old) (K.faults screen.new) }
{
    let Ok(maker) = make_program(alloc, number, work) else {
        return Status::NoMemory;
    };
    let written = write_summary(&maker.session, screen);
    maker.close();
    written_as(written)
}

/// The maker of a program of so many statements, once it has pressed all its keys.
fn make_program<W: Work>(alloc: Global, number: u32, work: &mut W) -> Result<Maker<W>, OutOfMemory>
    ensures made { IfOk result (λ maker.
        IsMade number (plain_session maker.session) (W.counts work.old) (W.counts work.new)) }
    ensures part { OnErr result (PartMade number (W.counts work.old) (W.counts work.new)) }
    ensures ready { IfOk result (λ maker. CanPress maker) }
{
    let Ok(mut maker) = Maker::open(alloc, work) else {
        return Err(OutOfMemory);
    };
    match press_all(alloc, number, &mut maker, work) {
        Ok(()) => Ok(maker),
        Err(OutOfMemory) => {
            maker.close();
            Err(OutOfMemory)
        }
    }
}

/// The maker of a program: a session, and files of its own, which its keys ask for nothing.
#[derive(Drop)]
pub struct Maker<W> {
    pub session: Session<W>,
    pub files: MemFiles,
}

impl<W: Work> Maker<W> {
    /// The maker before its first key: over a new program without input, on a screen that isn't shown.
    fn open(alloc: Global, work: &mut W) -> Result<Self, OutOfMemory>
        ensures state { IfOk result (λ maker. state_of maker ≡ made_from) }
        ensures ready { IfOk result (λ maker. CanPress maker) }
        ensures counts { CountsProgram (phrase_count new_tree) (code_length new_tree)
            (W.counts work.old) (W.counts work.new) }
    {
        let size = ScreenSize::new(USUAL_ROWS, USUAL_COLS);
        let session = Session::open(alloc, size, None, Vec::new(alloc), work)?;
        Ok(Maker {
            session,
            files: MemFiles::new(alloc, Vec::new(alloc)),
        })
    }

    /// Closes the maker's session, and lets go of its files.
    fn close(self) {
        let Maker { session, files } = self;
        session.close();
        drop(files);
    }

    /// Makes the steps of a key of a making in which the program's run goes on, tick by tick.
    fn make_steps(&mut self, alloc: Global, work: &mut W) -> Result<(), OutOfMemory>
        requires ready { CanPress self.old }
        requires running { IsRunning (plain_session self.old.session) }
        requires fits { RunFits (plain_session self.old.session) }
        ensures made { MakesTicks (plain_session self.old.session) (plain_session self.new.session)
            (W.counts work.old) (W.counts work.new) result }
        ensures ready { CanPress self.new }
        ensures files { self.new.files ≡ self.old.files }
    {
        loop {
            ticks_go_on();
            self.session.steps_are_the_programs();
            let tick = self.session.tick(alloc, work)?;
            if let Tick::Over = tick {
                return Ok(());
            }
        }
    }
}

impl<W: Work> Making<W> for Maker<W> {
    ghost state = { λ maker. state_of maker };

    ghost can_press = { λ maker. CanPress maker };

    fn press(&mut self, alloc: Global, key: Key, work: &mut W) -> Result<(), OutOfMemory> {
        running_keys_have_runs();
        self.session.running_keys_fit();
        let answer = self.session.press(alloc, key, &mut self.files, work)?;
        match answer {
            Answer::Running => self.make_steps(alloc, work),
            // None of the keys is a quit; one would end no making.
            Answer::Done | Answer::Refused(_) | Answer::Quit => Ok(()),
        }
    }
}

/// The status with which a making ends whose summary was written so.
fn written_as(written: Result<(), SinkFault>) -> Status
    ensures { result ≡ written_as written }
{
    match written {
        Ok(()) => Status::Done,
        Err(SinkFault::Failed) => Status::WriteFault,
        Err(SinkFault::OutOfMemory) => Status::NoMemory,
    }
}
