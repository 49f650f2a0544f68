//! Taking paths away (unlink(2)).
ghost use Rattle.ux_model.specs.Naming as model;
ghost use Rattle.ux_msg.specs.Answers.{Gives};

use crate::kernel::Kernel;
use ux_names::is_valid_path;
use ux_object::FileObject;
use ux_types::{Errno, Name, Refusal, Reply};

impl<O: FileObject> Kernel<O> {
    /// unlink(2). EINVAL for an invalid path, else ENOENT for one that isn't there.
    #[tactic(auto, unfolding(ux_model::specs::Naming::unlink))]
    pub(crate) fn unlink(&mut self, path: &Name) -> Result<Reply, Refusal>
        ensures { Gives self.old (model.unlink self.old path.now) result self.new }
    {
        if !is_valid_path(path) {
            return Err(Errno::EINVAL.into());
        }
        if self.state.path(path).is_none() {
            return Err(Errno::ENOENT.into());
        }
        self.state.unlink(path);
        Ok(Reply::Ok)
    }
}
