//! The body of a knitout file.
ghost use Rattle.std.specs.Prelude.{◌≡◌, All, IfErr, IfOk, length};
ghost use Rattle.line_cutter.specs.Cut.{IsGoodLine};
ghost use Rattle.knitout_reader.specs.Head.{IsHead, IsHeadFault};
ghost use Rattle.file_run.specs.Bodies.{body_of};

use knit_base::Lines;
use knitout_reader::{Head, HeadFault, read_head};
use std::alloc::Global;

/// The lines of a knitout file, and the head that they begin with: the lines behind it are the body.
#[derive(Drop)]
pub struct Body {
    pub lines: Lines,
    pub head: Head,
    ghost good: { All IsGoodLine lines },
    ghost headed: { IsHead lines head },
}

impl Body {
    /// The body of the file with these lines, or why their head is refused.
    pub fn of(alloc: Global, lines: Lines) -> Result<Body, HeadFault>
        requires { All IsGoodLine lines }
        ensures lines { IfOk result (λ body. body.lines ≡ lines) }
        ensures fault { IfErr result (λ fault. IsHeadFault lines fault) }
    {
        let head = read_head(alloc, &lines)?;
        Ok(Body { lines, head })
    }

    /// How many lines the body has.
    pub fn len(&self) -> u32
        ensures { result ≡ length (body_of self.now.lines) }
    {
        self.lines.len() - self.head.lines
    }
}
