// Answers to requests.
ghost use Rattle.std.specs.Prelude.{◌≡◌, ℕ, List, IfOk};
ghost use Rattle.io_world.specs.Replies.{IsLine};

use std::alloc::{AllocError, Global};

/// Something that answers request lines.
pub trait AnswerBy {
    /// The answer line of each request line, both without their line feed.
    ghost answers: { Self → List ℕ → List ℕ };

    /// The answer line of a request line, both without their line feed. What an Ok holds is a
    /// function of the request's bytes.
    ///
    /// # Errors
    /// `AllocError` where there is no memory.
    fn answer(&self, alloc: Global, request: &[u8]) -> Result<Vec<u8>, AllocError>
        requires { IsLine request.now }
        ensures value { IfOk result (λ answer. answer.items ≡ answers self.now request.now) }
        ensures line { IfOk result (λ answer. IsLine answer.items) };
}
