//! A line of the input.
ghost use Rattle.std.specs.Prelude.{◌≡◌, IsTrue, IfOk};
ghost use Rattle.line_server.specs.Bodies.{is_body};

use crate::refusal::Refusal;
use crate::request::Request;
use do_value::Mem;

/// A line by its number, the first being 1, with its request or why it is refused.
#[derive(Debug, Drop)]
pub struct Line {
    pub number: u64,
    pub body: Result<Request, Refusal>,
    pub ghost in_range: { IsTrue (is_body body) },
}

impl Line {
    /// The same line again, in memory of its own.
    pub fn copy(&self) -> Mem<Line>
        ensures number { IfOk result (λ line. line.number ≡ self.now.number) }
        ensures body { IfOk result (λ line. line.body ≡ self.now.body) }
    {
        let body = match &self.body {
            Ok(request) => Ok(request.copy()?),
            Err(refusal) => Err(*refusal),
        };
        Ok(Line {
            number: self.number,
            body,
        })
    }
}
