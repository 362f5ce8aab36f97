// The lines of a listing.
ghost use Rattle.processor.specs.Logging.{Follows};
ghost use Rattle.wording.specs.Lines.{Listed};

use processor::{CaseFault, Processor};
use wording::{Line, Tally, list_by};

// Logs the next message in a case, and gives its line. It is counted unless it is refused.
pub fn list(message: &[u8], processor: &mut Processor, tally: &mut Tally) -> Line<CaseFault>
    ensures logs { Follows processor.old message.now result.said processor.new }
    ensures listed { Listed tally.old result tally.new }
{
    list_by(processor, message, tally)
}
