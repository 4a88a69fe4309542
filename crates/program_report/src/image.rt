// The run of an image, and its line.
ghost use Rattle.std.specs.Prelude.{◌+◌, ◌≤◌, length};
ghost use Rattle.manual.specs.Micro.{Gives};
ghost use Rattle.text_writing.specs.Written.{Writes};
ghost use Rattle.image_run.specs.Report.{image_run, report_line};
ghost use Rattle.sentences.specs.Line.{longest_line};

use cpu::run;
use image_run::start_image;
use manual::{Ended, Lines};
use sentences::put_line;
use text_writing::Writer;

// Runs an image for at most 1,000 steps, with idle lines.
fn run_image(image: &mut [u8]) -> Ended
    ensures { Gives (image_run (length image.old)) image.old result image.new }
{
    let machine = start_image(image);
    run(machine, 1000, Lines::idle(), image)
}

// Runs the image and puts its line.
pub(crate) fn report(image: &mut [u8], out: &mut Writer) -> Ended
    ensures writes { Writes out.old (report_line image.old) out.new }
    ensures gives { Gives (image_run (length image.old)) image.old result image.new }
    ensures upper_bound { out.new.at ≤ out.old.at + longest_line }
{
    let ended = run_image(image);
    put_line(out, ended);
    ended
}
