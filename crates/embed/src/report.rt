// An answer as C gets it.
ghost use Rattle.model.specs.Refusal.{outcome_of};
ghost use Rattle.embed.specs.Report.{Reports};

use model::refusal::Refusal;

// Returns the refusal's number, or 0; stores its offset, or the value: how many elements were written, say.
pub(crate) fn tell(answer: Result<usize, Refusal>, value: &mut u64) -> u32
    ensures { Reports (outcome_of answer) result value.new }
{
    match answer {
        Ok(n) => {
            *value = n as u64;
            0
        }
        Err(refusal) => {
            *value = refusal.offset as u64;
            u32::from(u8::from(refusal.fault))
        }
    }
}
