// The texts in the braces of Local and Remote of a message, for the RTP card (CR 11): the text number k, in reading order and from 0, of a message that
// a call can take.
ghost use Rattle.std.specs.Prelude.{◌≡◌};
ghost use Rattle.texts.specs.Texts.{text_part, name_part, side_given};

// Whose it is: 1 for Local, 2 for Remote, 0 where there is no such text.
#[unsafe(no_mangle)]
pub extern "C" fn cordafina_text_side(message: &[u8], k: usize) -> u32
    ensures { result ≡ side_given message.now k }
{
    texts::side_given(message, k)
}

// The part of the message that holds it: its place in the high 32 bits, its length in the low 32.
#[unsafe(no_mangle)]
pub extern "C" fn cordafina_text(message: &[u8], k: usize) -> u64
    ensures { result ≡ text_part message.now k }
{
    texts::text_part(message, k)
}

// The part that is the name of its command's termination, as written.
#[unsafe(no_mangle)]
pub extern "C" fn cordafina_text_name(message: &[u8], k: usize) -> u64
    ensures { result ≡ name_part message.now k }
{
    texts::name_part(message, k)
}
