//! What opens files that runs left, for each instance by itself: so none waits for a file of
//! another.

ghost use Rattle.std.specs.Prelude.{◌<◌, length, IfOk, IfSome, codes};
ghost use Rattle.system.specs.Places.{WasFileAt, entry};

use crate::opener::Opener;
use crate::request::Target;
use run_calls::RunKey;
use std::alloc::{AllocError, Global};
use std::io;
use system::{Directory, Shells};

/// What opens files of an instance.
#[derive(Drop)]
struct OfInstance<D: Directory, S: Shells> {
    instance: u32,
    opener: Opener<D, S>,
}

/// What opens files, of each instance of which one was opened.
#[derive(Drop)]
pub(crate) struct Openers<D: Directory, S: Shells> {
    /// What was tried at the server's start, until an instance has it.
    spare: Option<Opener<D, S>>,
    instances: Vec<OfInstance<D, S>>,
}

impl<D: Directory, S: Shells<File = D::File>> Openers<D, S> {
    /// No instance has had a file opened yet.
    pub(crate) fn new(alloc: Global, tried: Opener<D, S>) -> Openers<D, S> {
        Openers {
            spare: Some(tried),
            instances: Vec::new(alloc),
        }
    }

    /// Opens a file to read it. There is none while it is being opened, and while another one of
    /// its instance is: it is to be asked for again.
    pub(crate) fn open(
        &mut self,
        shells: &mut S,
        target: &Target<'_, D>,
    ) -> io::Result<Option<D::File>>
        requires may { D.may_look (entry target.now.name.now (D.place target.now.directory.now)) }
        requires look { D.may_look (entry (codes "linked") (D.place target.now.aside.now)) }
        requires change { D.may_change (entry (codes "linked") (D.place target.now.aside.now)) }
        ensures { IfOk result (λ opened. IfSome opened (λ f. WasFileAt (D.File.has f)
            (D.File.stood_at f)
            (entry target.now.name.now (D.place target.now.directory.now)))) }
    {
        let opener = self.opener_of(shells.alloc(), target.run.instance)?;
        opener.open(shells, target)
    }

    /// Waits for the killed shells that have ended, so that none is left as a zombie.
    pub(crate) fn reap(&mut self) {
        for each in self.instances.iter_mut() {
            each.opener.reap();
        }
    }

    /// Opens no file of this run any more.
    pub(crate) fn forget(&mut self, run: RunKey) -> Result<(), AllocError> {
        match self.place_of(run.instance) {
            Some(at) => self.instances[at].opener.forget(run),
            None => Ok(()),
        }
    }

    fn place_of(&self, instance: u32) -> Option<usize>
        ensures { IfSome result (λ at. at < length self.now.instances.items) }
    {
        self.instances
            .iter()
            .position(|each| each.instance == instance)
    }

    /// What opens files of an instance.
    fn opener_of(&mut self, alloc: Global, instance: u32) -> Result<&mut Opener<D, S>, AllocError> {
        let at = match self.place_of(instance) {
            Some(at) => at,
            None => {
                let opener = self.spare.take().unwrap_or(Opener::new(alloc));
                self.instances.push(OfInstance { instance, opener })?;
                self.instances.len() - 1
            }
        };
        Ok(&mut self.instances[at].opener)
    }
}
