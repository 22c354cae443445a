//! The reader of listings.
ghost use Rattle.std.specs.Prelude.{◌≡◌, ◌<◌, ◌≤◌, ◌+◌, ◌∷◌, ◌++◌, ◌||◌, [], true, false, if◌then◌else◌, IfErr, IfOk, MatchOption, length};
ghost use Rattle.std.specs.List.{list_all};
ghost use Rattle.template_tree.specs.Programs.Build.{built_tree};
ghost use Rattle.template_tree.specs.Programs.Limit.{deepest_path, most_slots};
ghost use Rattle.template_tree.specs.Listings.Listing.{Spells};
ghost use Rattle.template_tree.specs.Programs.PlainTree.{Forest, forest};
ghost use Rattle.template_tree.specs.Programs.Program.{IsProgram};
ghost use Rattle.template_tree.specs.Programs.Slots.{count, depth};
ghost use Rattle.template_tree.specs.Programs.Tree.{IsTree};
ghost use Rattle.lane_rows.specs.TextByte.{is_text_byte};
ghost use Rattle.file_store.specs.Limit.{longest_listing};
ghost use Rattle.file_store.specs.Loaded.{HasNoEnd, Loaded, ReadsOnly, Refused, RefusesOnly};
ghost use Rattle.file_store.specs.declared.refusal.FileRefusal.{FileRefusal};
ghost use Rattle.file_store.specs.Private.Finds.{Finds};
ghost use Rattle.file_store.specs.Private.LineReading.{Says, SaysNothing};
ghost use Rattle.file_store.specs.Private.LineStarts.{AreStarts};
ghost use Rattle.file_store.specs.Private.Reader.{opens};
ghost use Rattle.file_store.specs.Private.Reading.{IsLineRefused, IsPast, IsTaken, refused_in};
ghost use Rattle.file_store.specs.Private.Views.{come_of, said_of, saying_of};

mod filling;
mod line_starts;
mod lines;
mod open_list;
mod open_nodes;
mod parts;
mod said;

use crate::limit::LONGEST_LISTING;
use crate::line_laws::line_laws;
use crate::reader::line_starts::line_starts;
use crate::reader::lines::read_line;
use crate::reader::open_list::OpenNodes;
use crate::reader::open_nodes::{finish, line_taken};
use crate::reader::said::{Said, Saying};
use crate::refusal::FileRefusal;
use lane_rows::all_printable;
use phrase_parser::NotRead;
use std::alloc::Global;
use template_tree::{DEEPEST_PATH, MOST_SLOTS, Nodes, Tree};

/// The tree whose listing the bytes are; its slots are drawn from 0 in listing order, and nothing in it is
/// elided.
///
/// It goes over the bytes once, and takes time and memory in proportion to them.
pub fn read_listing(alloc: Global, bytes: &[u8]) -> Result<Tree, FileRefusal>
    // What each answer says of the bytes.
    ensures says { Loaded bytes.now result }
    // The listing of a program within the limits is read as that program, unless memory runs out.
    ensures only { (items : Forest) → Spells items bytes.now → depth items ≤ deepest_path → count items ≤ most_slots
        → ReadsOnly result items }
    // What is refused for a reason is answered with it, unless memory runs out.
    ensures refused { (refusal : FileRefusal) → Refused bytes.now refusal → RefusesOnly result refusal }
{
    line_laws();
    read_lines(alloc, bytes)
}

/// Reads the bytes as a listing, if they are no more than one may have.
fn read_lines(alloc: Global, bytes: &[u8]) -> Result<Tree, FileRefusal>
    ensures { Loaded bytes.now result }
{
    if bytes.len() > LONGEST_LISTING {
        return Err(FileRefusal::TooLong);
    }
    match line_starts(alloc, bytes) {
        Ok(starts) => {
            let read = read_started(alloc, bytes, starts.as_slice());
            drop(starts);
            read
        }
        Err(_) => Err(FileRefusal::OutOfMemory),
    }
}

/// Reads the bytes as a listing, line after line, where their lines start there.
fn read_started(alloc: Global, bytes: &[u8], starts: &[u32]) -> Result<Tree, FileRefusal>
    requires short { length bytes.now ≤ longest_listing }
    requires starts { AreStarts bytes.now starts.now }
    ensures { Loaded bytes.now result }
{
    line_laws();
    let mut reader = Reader {
        printable: all_printable(bytes),
        stack: OpenNodes::new(alloc),
        lines: 0,
        opened: 0,
    };
    let mut rest = bytes;
    let mut left = starts;
    while let Some((line, more, later)) = split_line(rest, left) {
        reader = reader.taken(alloc, line)?;
        rest = more;
        left = later;
    }
    let Reader { stack, lines, .. } = reader;
    let number = lines + 1;
    if is_left(rest) {
        drop(stack);
        return Err(FileRefusal::NotAListing(number));
    }
    match finish(stack) {
        Ok(items) => Ok(tree_of(alloc, items)),
        Err(fault) => Err(refused_in(number, fault)),
    }
}

/// How far the reader of a listing has come.
#[derive(Drop)]
struct Reader {
    /// Whether each byte of the listing is printable or a line end.
    printable: bool,
    stack: OpenNodes,
    /// How many lines were read.
    lines: u32,
    /// In how many of them a node began.
    opened: u32,
}

impl Reader {
    /// The reader of a listing once it has taken the line.
    fn taken(self, alloc: Global, line: &[u8]) -> Result<Reader, FileRefusal>
        requires few { (come_of self).lines < longest_listing }
        requires opened { (come_of self).opened ≤ most_slots }
        requires short { length line.now ≤ longest_listing }
        ensures taken { IfOk result (λ next. IsTaken line.now (come_of self) (come_of next)) }
        ensures refused { IfErr result (IsLineRefused line.now (come_of self)) }
    {
        line_laws();
        let Reader {
            printable,
            stack,
            lines,
            opened,
        } = self;
        let number = lines + 1;
        match read_text_line(alloc, printable, line) {
            Ok(said) => {
                let level = said.level;
                let opens = opens(&said.saying);
                match line_taken(alloc, stack, said) {
                    Ok(stack) => match past_limit(opens, level, opened) {
                        Some(refusal) => {
                            drop(stack);
                            Err(refusal)
                        }
                        None => Ok(Reader {
                            printable,
                            stack,
                            lines: number,
                            opened: counted(opens, opened),
                        }),
                    },
                    Err(fault) => Err(refused_in(number, fault)),
                }
            }
            Err(fault) => {
                drop(stack);
                Err(refused_in(number, fault))
            }
        }
    }
}

/// Reads a whole line of a listing, unless its bytes tell already that no listing has it.
fn read_text_line(alloc: Global, printable: bool, line: &[u8]) -> Result<Said, NotRead>
    ensures says { Finds (λ said. Says line.now (said_of said)) (SaysNothing line.now) result }
    ensures small { IfOk result (λ said. said.level ≤ length line.now) }
{
    line_laws();
    if !has_text_bytes(printable, line) {
        return Err(NotRead::Refused);
    }
    read_line(alloc, line)
}

/// Whether a listing may have the bytes of the line, which are looked at only where it isn't known of all its bytes.
fn has_text_bytes(printable: bool, line: &[u8]) -> bool
    ensures { result ≡ (printable || list_all is_text_byte line.now) }
{
    printable || all_printable(line)
}

/// Why the reader refuses a listing whose line of this number wasn't read.
fn refused_in(number: u32, fault: NotRead) -> FileRefusal
    ensures { result ≡ refused_in number fault }
{
    match fault {
        NotRead::OutOfMemory => FileRefusal::OutOfMemory,
        NotRead::Refused => FileRefusal::NotAListing(number),
    }
}

/// The limit that a node is past which begins in a line of the level, if one does, where the reader
/// counted so many before.
fn past_limit(opens: bool, level: usize, opened: u32) -> Option<FileRefusal>
    ensures { IsPast opens level opened result }
{
    if !opens {
        return None;
    }
    if level >= DEEPEST_PATH {
        return Some(FileRefusal::TooDeep);
    }
    if opened >= MOST_SLOTS {
        return Some(FileRefusal::TooLarge);
    }
    None
}

/// In how many lines the reader saw a node begin, with one more line in which one may.
fn counted(opens: bool, opened: u32) -> u32
    requires { opened ≤ most_slots }
    ensures { result ≡ (if opens then 1 else 0) + opened }
{
    if opens { opened + 1 } else { opened }
}

/// Whether a node begins in the line that the reader of listings takes.
fn opens(saying: &Saying) -> bool
    ensures { result ≡ opens (saying_of saying.now) }
{
    matches!(saying, Saying::Head(_, _))
}

/// Whether the reader of a listing has bytes of it left.
fn is_left(bytes: &[u8]) -> bool
    ensures left { result ≡ true → bytes.now ≡ [] → ⊥ }
    ensures none { result ≡ false → bytes.now ≡ [] }
{
    bytes.len() > 0
}

/// The first line of what the reader has left of a listing's text, and what stands behind its end, with the starts
/// of the lines that are left then.
fn split_line<'a, 'b>(text: &'a [u8], starts: &'b [u32]) -> Option<(&'a [u8], &'a [u8], &'b [u32])>
    requires starts { AreStarts text.now starts.now }
    ensures { MatchOption result (HasNoEnd text.now)
        (λ parts. (text.now ≡ parts.0.now ++ (10 ∷ parts.1.now)) × HasNoEnd parts.0.now
        × AreStarts parts.1.now parts.2.now) }
{
    let Some((start, later)) = starts.split_first() else {
        return None;
    };
    let end = text.len() - *start as usize - 1;
    Some((&text[..end], &text[end + 1..], later))
}

/// The tree of the program that the reader found, which is within the limits.
fn tree_of(alloc: Global, items: Nodes) -> Tree
    requires program { IsProgram (forest items.items) }
    requires shallow { depth (forest items.items) ≤ deepest_path }
    requires few { count (forest items.items) ≤ most_slots }
    ensures built { result ≡ built_tree items }
    ensures tree { IsTree result }
{
    match Tree::built(items) {
        Ok(tree) => with_slots_entered(alloc, tree),
        Err(_) => unreachable!(),
    }
}

/// The tree that was built, in which it is noted where its slots stand, if there is memory for it.
fn with_slots_entered(alloc: Global, tree: Tree) -> Tree
    ensures { result ≡ tree }
{
    let mut entered = tree;
    let _ = entered.enter_slots(alloc);
    entered
}
