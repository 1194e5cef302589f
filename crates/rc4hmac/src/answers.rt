// The answers of the calls as C sees them: the number of a refusal, and the values behind pointers, zeros with a refusal.
ghost use Rattle.std.specs.Prelude.{◌≡◌, replicate};
ghost use Rattle.rc4hmac.specs.Answers.{window_words, ValueOut, UnwrappedOut, ReceivedOut};
ghost use Rattle.rc4hmac.specs.Primitives.{outcome};

use billing::receive::Received;
use billing::window::Window;
use primitives::limits::LengthError;
use tokens::answer;
use tokens::answer::{Refusal, Unwrapped};

// Writes a value for C, or `otherwise` with a refusal, and returns the number of the refusal, or 0.
pub fn value_out<T: Copy>(answer: Result<T, Refusal>, otherwise: T, out: &mut T) -> u32
    ensures { ValueOut answer otherwise result out.new }
{
    match answer {
        Ok(value) => {
            *out = value;
            0
        }
        Err(refusal) => {
            *out = otherwise;
            refusal.number()
        }
    }
}

// Writes a digest of the primitives, zeros with a refusal.
pub fn digest_out(answer: Result<[u8; 16], LengthError>, out: &mut [u8; 16]) -> u32
    ensures { ValueOut (outcome answer) (replicate 16 0) result out.new }
{
    value_out(answer.map_err(Refusal::from), [0; 16], out)
}

// Writes what a Wrap token holds, zeros with a refusal.
pub fn unwrapped_out(
    answer: Result<Unwrapped, Refusal>,
    sequence: &mut u32,
    sealed: &mut u32,
    len: &mut usize,
) -> u32
    ensures { UnwrappedOut answer result sequence.new sealed.new len.new }
{
    let unwrapped = answer.unwrap_or_default();
    *sequence = unwrapped.sequence;
    *sealed = u32::from(unwrapped.sealed);
    *len = unwrapped.length;
    answer::status_number(&answer)
}

// Writes a window as four numbers.
pub fn window_out(window: Window, out: &mut [u64; 4])
    ensures { out.new ≡ window_words window }
{
    *out = [
        u64::from(window.first),
        u64::from(window.next),
        window.seen,
        window.billed,
    ];
}

// Writes the status of a received number, 0 where there is none, and the window if the number was billed.
pub fn received_out(received: Received, window: &mut [u64; 4], status: &mut u32)
    ensures { ReceivedOut received window.old window.new status.new }
{
    *status = received.number();
    if received.is_billed() {
        window_out(received.window, window);
    }
}
