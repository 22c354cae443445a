//! Trees that are saved.
ghost use Rattle.std.specs.Prelude.{◌≡◌, ◌≢◌, Err, IsSome, OnOk, codes};
ghost use Rattle.std.specs.Io.KnownBytes.{Appends};
ghost use Rattle.synth_outside.specs.Files.{LeavesMap, begun_bytes, begun_name};
ghost use Rattle.synth_outside.specs.declared.faults.FilesFault.TheVariants.{NoFile};
ghost use Rattle.template_tree.specs.Listings.Listing.{Listing};
ghost use Rattle.template_tree.specs.Programs.Tree.{IsTree};
ghost use Rattle.file_store.specs.Saved.{Saves};

use crate::file_out::FileOut;
use crate::refusal::FileRefusal;
use crate::waiting::Waiting;
use synth_outside::{Files, FilesFault};
use template_tree::Tree;

/// Saves a tree as the listing file of the name, all of it or nothing. It takes no memory of its own.
pub fn save<F: Files>(tree: &Tree, name: &[u8], files: &mut F) -> Result<(), FileRefusal>
    requires tree { IsTree tree.now }
    ensures { Saves name.now (Listing tree.now.items) result (F.told files.old) (F.told files.new) }
{
    files.begin(name)?;
    write_listing(tree, files)?;
    Ok(files.commit()?)
}

/// Saves a tree, as any tree is saved, as the listing file of the name `RESCUE`.
pub fn rescue<F: Files>(tree: &Tree, files: &mut F) -> Result<(), FileRefusal>
    requires tree { IsTree tree.now }
    ensures { Saves (codes "RESCUE") (Listing tree.now.items) result (F.told files.old) (F.told files.new) }
{
    save(tree, b"RESCUE", files)
}

/// Writes the listing of the tree that is saved behind what is begun.
#[tactic(auto, using(crate::proofs::Sending::cause_ok, crate::proofs::Sending::cause_err))]
fn write_listing<F: Files>(tree: &Tree, files: &mut F) -> Result<(), FilesFault>
    requires tree { IsTree tree.now }
    requires begun { IsSome (F.begun files.old) }
    ensures told { OnOk result (Appends (begun_bytes (F.begun files.old)) (begun_bytes (F.begun files.new))
        (Listing tree.now.items)) }
    ensures files { LeavesMap (F.told files.old) (F.told files.new) result }
    ensures name { begun_name (F.begun files.new) ≡ begun_name (F.begun files.old) }
    ensures begun { IsSome (F.begun files.new) }
    ensures found { result ≢ Err NoFile }
{
    let mut out = FileOut {
        files,
        wait: Waiting::none(),
        fault: None,
    };
    out.write_listing(tree);
    match out.fault {
        None => Ok(()),
        Some(fault) => Err(fault),
    }
}
