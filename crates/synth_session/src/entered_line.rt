//! What Enter does with the typed line, which is a command or phrase text.
ghost use Rattle.std.specs.Prelude.{◌≡◌, ◌≤◌, ◌<◌, ◌^◌, IfOk, IsTrue, Some, is_some, length};
ghost use Rattle.plcs_grammar.specs.Canon.{IsWellFormed};
ghost use Rattle.plcs_grammar.specs.PlainPhrase.{category_of, plain_phrase};
ghost use Rattle.phrase_parser.specs.Standing.{HasStanding, Standing};
ghost use Rattle.synth_outside.specs.Files.{PlainFiles};
ghost use Rattle.session_words.specs.CommandLine.{begins_with_point};
ghost use Rattle.session_words.specs.PlainCommand.{plain_command};
ghost use Rattle.template_tree.specs.Programs.Part.{IsPhrasePlace};
ghost use Rattle.session_edit.specs.Here.{category_at};
ghost use Rattle.synth_session.specs.EnteredLine.{command_line_outcome, command_outcome, line_entered, text_entered};
ghost use Rattle.synth_session.specs.KeyReply.{Reply, Request};
ghost use Rattle.synth_session.specs.KeyRequest.{command_line_request, command_request, line_request, text_request};
ghost use Rattle.synth_session.specs.MemoryTaken.{command_line_takes_memory, command_takes_memory, line_takes_memory};
ghost use Rattle.synth_session.specs.PlainSession.{PlainSession};
ghost use Rattle.synth_session.specs.Private.Faults.{IsEntered, IsReadOf};
ghost use Rattle.synth_session.specs.SessionView.{CountsOutcome, Does, DoesByReply, IsReadyForKey, plain_session};

use crate::answer::{Answer, Refusal};
use crate::session::Session;
use crate::typed_line::LINE_LIMIT;
use arrayvec::ArrayVec;
use cursor_moves::{bottom, top};
use phrase_parser::{PhraseFault, one_standing, parse};
use plcs_base::{OutOfMemory, Work};
use plcs_grammar::{Category, Phrase, shown_len};
use session_edit::{Edit, wanted};
use session_words::{Command, CommandFault, begins_with_point, read_command};
use std::alloc::Global;
use synth_outside::Files;
use template_tree::{LONGEST_PHRASE, Side};

impl<W: Work> Session<W> {
    /// Does what Enter asks for with the typed line.
    pub(crate) fn enter<F: Files>(
        &mut self,
        alloc: Global,
        files: &mut F,
        work: &mut W,
    ) -> Result<Answer, OutOfMemory>
        requires session { IsReadyForKey self.old }
        ensures does { DoesByReply (line_takes_memory (plain_session self.old))
            (line_request (plain_session self.old)) (line_entered (plain_session self.old)) self.old self.new
            (F.told files.old) (F.told files.new) (W.counts work.old) (W.counts work.new) result }
    {
        if self.typed.is_empty() {
            return Ok(self.move_right());
        }
        let mut line: ArrayVec<u8, LINE_LIMIT> = ArrayVec::new();
        match line.try_extend_from_slice(&self.typed) {
            Ok(()) => {}
            Err(_) => unreachable!(),
        }
        if begins_with_point(&line) {
            self.enter_command(alloc, &line, files, work)
        } else {
            self.enter_text(alloc, work)
        }
    }

    /// Does what the command line asks for, which is the typed line.
    fn enter_command<F: Files>(
        &mut self,
        alloc: Global,
        line: &[u8],
        files: &mut F,
        work: &mut W,
    ) -> Result<Answer, OutOfMemory>
        requires session { IsReadyForKey self.old }
        requires line { line.now ≡ self.old.typed.items }
        requires point { IsTrue (begins_with_point line.now) }
        ensures does { DoesByReply (command_line_takes_memory (plain_session self.old))
            (command_line_request (plain_session self.old)) (command_line_outcome (plain_session self.old))
            self.old self.new
            (F.told files.old) (F.told files.new) (W.counts work.old) (W.counts work.new) result }
    {
        match read_command(line) {
            Ok(Command::Save(name)) => self.save(name, files),
            Ok(Command::Load(name)) => self.load(alloc, name, files, work),
            Ok(Command::Step(steps)) => self.step_on(alloc, steps, work),
            Ok(Command::Resume) => Ok(self.resume()),
            Ok(command) => {
                let answer = self.obey(alloc, &command, work);
                drop(command);
                answer
            }
            Err(CommandFault::UnknownCommand) => Ok(self.refuse(Refusal::UnknownCommand)),
            Err(CommandFault::WrongArgument) => Ok(self.refuse(Refusal::WrongArgument)),
        }
    }

    /// Does what a command in the entered line asks for that asks nothing, in whatever session.
    fn obey(
        &mut self,
        alloc: Global,
        command: &Command<'_>,
        work: &mut W,
    ) -> Result<Answer, OutOfMemory>
        requires session { IsReadyForKey self.old }
        requires unasked { (s : PlainSession) → command_request s (plain_command command.now) ≡ Request.Nothing }
        ensures does { Does (command_takes_memory (plain_session self.old) (plain_command command.now))
            (command_outcome (plain_session self.old) (plain_command command.now) Reply.NotAsked)
            self.old self.new result }
        ensures counts { CountsOutcome
            (command_outcome (plain_session self.old) (plain_command command.now) Reply.NotAsked)
            (W.counts work.old) (W.counts work.new) result }
    {
        match command {
            Command::Template(template) => self.edit(alloc, Edit::Fill(*template), work),
            Command::Float => Ok(self.refuse(Refusal::FloatNotThere)),
            Command::Before => self.edit(alloc, Edit::Beside(Side::Before), work),
            Command::After => self.edit(alloc, Edit::Beside(Side::After), work),
            Command::Del => self.edit(alloc, Edit::Delete, work),
            Command::Cut(name) => self.cut(alloc, name, work),
            Command::Copy(name) => self.copy(alloc, name),
            Command::Insert(name) => self.insert(alloc, name, work),
            Command::Elide => Ok(self.toggle_comment()),
            Command::Undo => self.undo_edit(alloc, work),
            Command::Top => {
                let stop = top(&self.program.tree);
                Ok(self.go_to(stop))
            }
            Command::Bottom => {
                let stop = bottom(&self.program.tree);
                Ok(self.go_to(stop))
            }
            Command::Quit => Ok(Answer::Quit),
            Command::Save(_) | Command::Load(_) | Command::Step(_) | Command::Resume =>
                unreachable!(),
            Command::Run => self.run_anew(alloc, work),
            Command::Back(steps) => Ok(self.go_back(*steps)),
            Command::Trace => Ok(self.turn_trace()),
            Command::Input(text) => self.add_input(text),
            Command::Code(from) => Ok(self.show_code(*from)),
        }
    }

    /// Enters the typed line as phrase text at the cursor. The files aren't asked, whatever they are.
    fn enter_text(&mut self, alloc: Global, work: &mut W) -> Result<Answer, OutOfMemory>
        requires session { IsReadyForKey self.old }
        ensures does { (files : PlainFiles) →
            DoesByReply (is_some (category_at (plain_session self.old).tree (plain_session self.old).stop))
            (text_request (plain_session self.old)
            (category_at (plain_session self.old).tree (plain_session self.old).stop))
            (text_entered (plain_session self.old)
            (category_at (plain_session self.old).tree (plain_session self.old).stop))
            self.old self.new files files (W.counts work.old) (W.counts work.new) result }
    {
        let Some(category) = wanted(&self.program.tree, &self.stop) else {
            return Ok(self.refuse(Refusal::NotHere));
        };
        match entered_phrase(alloc, category, self.typed.as_slice()) {
            Ok(Ok(phrase)) => self.edit(alloc, Edit::Enter(phrase), work),
            Ok(Err(why)) => Ok(self.refuse(why)),
            Err(error) => Err(error),
        }
    }
}

/// The phrase that is entered for the typed line, which is phrase text of the category, or why it isn't entered.
fn entered_phrase(
    alloc: Global,
    category: Category,
    text: &[u8],
) -> Result<Result<Phrase, Refusal>, OutOfMemory>
    requires { length text.now < 2 ^ 32 }
    ensures entered { (standing : Standing) × HasStanding category text.now standing × IsEntered standing result }
    ensures stands { IfOk result (λ entered. IfOk entered (λ phrase. IsPhrasePlace (Some (plain_phrase phrase)))) }
{
    match read_phrase(alloc, category, text) {
        Ok(phrase) => {
            if shown_len(&phrase) > LONGEST_PHRASE {
                drop(phrase);
                Ok(Err(Refusal::PhraseFull))
            } else {
                Ok(Ok(phrase))
            }
        }
        Err(fault) => match fault {
            PhraseFault::OutOfMemory => Err(OutOfMemory),
            _ => Ok(Err(Refusal::Phrase(fault))),
        },
    }
}

/// The phrase that the typed line, entered as phrase text, is in the category.
fn read_phrase(alloc: Global, category: Category, text: &[u8]) -> Result<Phrase, PhraseFault>
    requires { length text.now < 2 ^ 32 }
    ensures read { (standing : Standing) × HasStanding category text.now standing × IsReadOf standing result }
    ensures sound { IfOk result (λ phrase. IsWellFormed (category_of (plain_phrase phrase)) (plain_phrase phrase)) }
{
    one_standing();
    parse(alloc, category, text)
}
