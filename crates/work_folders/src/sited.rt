//! Nodes of runs that have trees.

ghost use Rattle.std.specs.Prelude.{◌≡◌, ◌↔◌, IfOk, IsTrue};
ghost use Rattle.made_trees.specs.RunTrees.{IfTree, IsBoundAs, site_shown};
ghost use Rattle.work_folders.specs.Rights.{Below, MayRun, root_place};

use crate::places::Places;
use crate::start_folder::StartFolder;
use made_trees::Site;
use run_calls::{RunKey, TaskNodeKind};
use std::alloc::Global;
use std::io;
use std::rc::RcStr;
use system::{Directory, Shells};

/// That of the folder of a tree, less what the umask takes: as all directories of inputs.
const TREE_MODE: u32 = 0o777;

/// Whether a node that was made before is the place of a tree of its digest.
fn is_bound_as(kind: &TaskNodeKind, site: Site<'_>) -> bool
    ensures { IsTrue result ↔ IsBoundAs kind.now (site_shown site.entry) }
{
    match kind {
        TaskNodeKind::Made { directory } => match site {
            Site::Bound(digest) => digest == *directory,
            Site::Own | Site::PlaceOf(_) | Site::InTree(..) | Site::There => false,
        },
        TaskNodeKind::File { .. } | TaskNodeKind::Symlink { .. } | TaskNodeKind::Directory => true,
    }
}

/// Makes the place of a tree of a run, and notes it.
fn make_place<D: Directory, S: Shells<File = D::File>>(
    start: &mut StartFolder<D, S>,
    alloc: Global,
    run: RunKey,
    names: &[RcStr],
    kind: &TaskNodeKind,
    places: &mut Places,
) -> io::Result<()>
    requires look { Below D.may_look (root_place start.old run) }
    requires change { Below D.may_change (root_place start.old run) }
    ensures same { start.new ≡ start.old }
{
    start.make_node(alloc, run, names, kind)?;
    let identity = start.identity_of_made(alloc, run, names)?;
    Ok(places.add(run, identity)?)
}

/// Makes a node of a run, where that is to stand. A file is open then, to be written.
pub(crate) fn make_at<D: Directory, S: Shells<File = D::File>>(
    start: &mut StartFolder<D, S>,
    alloc: Global,
    site: Site<'_>,
    run: RunKey,
    names: &[RcStr],
    kind: &TaskNodeKind,
    places: &mut Places,
) -> io::Result<()>
    requires look { Below D.may_look (root_place start.old run) }
    requires change { Below D.may_change (root_place start.old run) }
    requires tree { IfTree (site_shown site)
        (λ folder. MayRun D.may_look D.may_change D.is_settled start.old folder) }
    ensures bound { IfOk result (λ _. IsBoundAs kind.now (site_shown site.entry)) }
    ensures same { start.new ≡ start.old }
{
    if !is_bound_as(kind, site) {
        return Err(io::Error::other("a directory of inputs was not made before"));
    }
    match site {
        Site::Own => start.make_node(alloc, run, names, kind),
        Site::Bound(_) => make_place(start, alloc, run, names, kind, places),
        Site::PlaceOf(folder) => {
            start.make_root(alloc, folder, TREE_MODE)?;
            make_place(start, alloc, run, names, kind, places)
        }
        Site::InTree(folder, rest) => start.make_node(alloc, folder, rest, kind),
        Site::There => Ok(()),
    }
}

/// Adds to a file of a run that was made, where that stands.
pub(crate) fn write_at<D: Directory, S: Shells<File = D::File>>(
    start: &mut StartFolder<D, S>,
    alloc: Global,
    site: Site<'_>,
    run: RunKey,
    names: &[RcStr],
    bytes: &[u8],
) -> io::Result<()>
    requires look { Below D.may_look (root_place start.old run) }
    requires change { Below D.may_change (root_place start.old run) }
    requires tree { IfTree (site_shown site)
        (λ folder. MayRun D.may_look D.may_change D.is_settled start.old folder) }
    ensures same { start.new ≡ start.old }
{
    match site {
        Site::Own | Site::PlaceOf(_) | Site::Bound(_) => start.write(alloc, run, names, bytes),
        Site::InTree(folder, rest) => start.write(alloc, folder, rest, bytes),
        Site::There => Ok(()),
    }
}
