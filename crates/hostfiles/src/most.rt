// The image with most writes.
ghost use Rattle.std.specs.Prelude.{◌≡◌, length};
ghost use Rattle.heaviest.specs.Heaviest.{heaviest_answer, heaviest_output};
ghost use Rattle.results.specs.Most.{most_result};

use heaviest::write_image;
use results::most::TealsettleMost;

// An image of `n` bytes with as many writes as an accepted one can have, at the front of a buffer. A refusal leaves the
// buffer as it was.
#[unsafe(no_mangle)]
pub extern "C" fn tealsettle_heaviest_image(n: usize, out: &mut [u8]) -> TealsettleMost
    ensures answer { result ≡ most_result (heaviest_answer n (length out.old)) }
    ensures output { out.new ≡ heaviest_output n out.old }
{
    write_image(n, out).into()
}
