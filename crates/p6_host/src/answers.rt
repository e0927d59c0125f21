// What C is told of an answer.
ghost use Rattle.std.specs.Prelude.{◌≡◌};
ghost use Rattle.p0_refusals.specs.Answers.{refusal_of};
ghost use Rattle.p6_host.specs.Counts.{count_out, behaviour_out};

use p0_refusals::Refusal;

// The number of a refusal, or 0, and how much was done.
pub fn tell(given: Result<usize, Refusal>, count: &mut usize) -> u32
    ensures { (result ≡ refusal_of given) × (count.new ≡ count_out given count.old) }
{
    match given {
        Ok(n) => {
            *count = n;
            0
        }
        Err(refusal) => u32::from(refusal),
    }
}

// The same of an undo: 0 for append, 1 for consume. Each `tell` writes its own lent places from its own answer: a closure that does is as long.
pub fn tell_behaviour(given: Result<usize, Refusal>, behaviour: &mut u32) -> u32
    ensures { (result ≡ refusal_of given) × (behaviour.new ≡ behaviour_out given behaviour.old) }
{
    match given {
        Ok(n) => {
            *behaviour = u32::from(n != 0);
            0
        }
        Err(refusal) => u32::from(refusal),
    }
}
