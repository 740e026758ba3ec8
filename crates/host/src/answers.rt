// The answer of the next weight's parts: 0 or the refusal's number, and their words in out.
ghost use Rattle.std.specs.Prelude.{◌≡◌};
ghost use Rattle.next.specs.Next.{next_outcome};
ghost use Rattle.host_answers.specs.Host.{answered, shown};

use next::Parts;
use table::Refusal;

// 0 and the words of carry, done and omega, or the refusal's number.
pub fn give_next(given: Result<Parts, Refusal>, out: &mut [u32; 12]) -> u32
    ensures { answered result out.new ≡ shown (next_outcome given) out.old }
{
    host_answers::give(given.map(Parts::words), out)
}
