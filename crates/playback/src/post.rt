//! The messages of a session.
ghost use Rattle.std.specs.Prelude.{◌≡◌, ◌++◌, ◌∷◌, [], OnOk};
ghost use Rattle.world.specs.View.{output_of, outputs_of};
ghost use Rattle.playback.specs.Posts.{messages, sent_in};

use model::mark::Mark;
use model::message::Message;
use std::alloc::AllocError;
use world::output::Output;

/// A message, with the mark of the step that sent it.
#[derive(Drop)]
pub(crate) struct Post {
    pub mark: Mark,
    pub message: Message,
}

// Adds the message that an output is, if it is one.
fn post_one(posts: &mut Vec<Post>, mark: Mark, output: &Output) -> Result<(), AllocError>
    ensures { OnOk result (messages posts.new.items ≡ messages posts.old.items ++ sent_in (output_of output.now ∷ [])) }
{
    if let Output::Sent(_, message) = output {
        let message = message.clone()?;
        posts.push(Post { mark, message })?;
    }
    Ok(())
}

/// Adds the messages among outputs, which were sent at this mark.
pub(crate) fn post_all(
    posts: &mut Vec<Post>,
    mark: Mark,
    outputs: &[Output],
) -> Result<(), AllocError>
    ensures { OnOk result (messages posts.new.items ≡ messages posts.old.items ++ sent_in (outputs_of outputs.now)) }
{
    for output in outputs {
        post_one(posts, mark, output)?;
    }
    Ok(())
}
