// Our SDP subset (document 02, CR 11; RFC 2327): the reader of a text in the braces of Local or Remote.
#![tactic(auto)]

ghost use Rattle.std.specs.Prelude.{◌≡◌};
ghost use Rattle.base.specs.Bytes.{text};
ghost use Rattle.base.specs.Lists.{every, same};
ghost use Rattle.megaco.specs.Sdp.{given_at, dotted_part_at, dotted_pair_at, dotted_at, connection_of, payload_of, audio_of, is_blank, another_letter, is_skipped, sdp_line_of, sdp_step, sdp_finish, read_sdp};

use megaco::{SdpLine, SdpStage, SdpText};

// ---- bytes

#[tactic(auto, unfolding(megaco::specs::Sdp::is_blank))]
fn is_blank(b: u8) -> bool
    ensures { result ≡ is_blank b }
{
    (b == b' ') | (b == b'\t')
}

// Whether given bytes stand at a place.
fn given(s: &[u8], at: usize, form: &[u8]) -> bool
    ensures { result ≡ given_at form.now s.now at }
{
    s.get(at..).unwrap_or(&[]).starts_with(form)
}

// ---- numbers

#[tactic(auto, unfolding(megaco::specs::Sdp::dotted_part_at))]
fn octet(s: &[u8], at: usize) -> Option<(u32, usize)>
    ensures { result ≡ dotted_part_at s.now at }
{
    tokens::number(s, at, 3, 255)
}

// Two numbers joined by a dot.
#[tactic(auto, using(crate::proofs::SdpLaws::given_fits, crate::proofs::SdpLaws::octet_times, crate::proofs::SdpLaws::octet_sum), unfolding(megaco::specs::Sdp::dotted_pair_at, megaco::specs::Sdp::joined, megaco::specs::Sdp::plus, base::specs::Pick::pick))]
fn pair(s: &[u8], at: usize) -> Option<(u32, usize)>
    ensures { result ≡ dotted_pair_at s.now at }
{
    let (v, p) = octet(s, at)?;
    if given(s, p, b".") {
        let (w, e) = octet(s, p + 1)?;
        return Some((v * 256 + w, e));
    }
    None
}

// Four numbers joined by dots, the first highest.
#[tactic(auto, using(crate::proofs::SdpLaws::given_fits, crate::proofs::SdpLaws::pair_times, crate::proofs::SdpLaws::pair_sum), unfolding(megaco::specs::Sdp::dotted_at, megaco::specs::Sdp::joined, megaco::specs::Sdp::plus, base::specs::Pick::pick))]
fn address(s: &[u8], at: usize) -> Option<(u32, usize)>
    ensures { result ≡ dotted_at s.now at }
{
    let (v, p) = pair(s, at)?;
    if given(s, p, b".") {
        let (w, e) = pair(s, p + 1)?;
        return Some((v * 65536 + w, e));
    }
    None
}

// ---- lines

#[tactic(auto, unfolding(megaco::specs::Sdp::connection_of, megaco::specs::Sdp::ending, base::specs::Pick::pick))]
fn connection(l: &[u8]) -> SdpLine
    ensures { result ≡ connection_of l.now }
{
    if given(l, 0, b"c=IN IP4 ") {
        // no failure for `?` to hand on: the answer is a line
        let Some((value, next)) = address(l, 9) else {
            return SdpLine::Strange;
        };
        if l.len() <= next {
            return SdpLine::Connection(value);
        }
    }
    SdpLine::Strange
}

// A media line behind its port.
#[tactic(auto, using(crate::proofs::SdpLaws::given_fits), unfolding(megaco::specs::Sdp::payload_of, megaco::specs::Sdp::ending, base::specs::Pick::pick))]
fn payload_type(l: &[u8], port: Option<(u32, usize)>) -> SdpLine
    ensures { result ≡ payload_of l.now port }
{
    // as above
    let Some((p, q)) = port else {
        return SdpLine::Strange;
    };
    if given(l, q, b" RTP/AVP ") {
        // as above
        let Some((k, e)) = tokens::number(l, q + 9, 3, 127) else {
            return SdpLine::Strange;
        };
        if l.len() <= e {
            return SdpLine::Audio {
                port: p,
                payload: k,
            };
        }
    }
    SdpLine::Strange
}

#[tactic(auto, unfolding(megaco::specs::Sdp::audio_of, base::specs::Pick::pick))]
fn audio(l: &[u8]) -> SdpLine
    ensures { result ≡ audio_of l.now }
{
    if given(l, 0, b"m=audio ") {
        let n = tokens::number(l, 8, 5, 65535);
        return payload_type(l, n);
    }
    SdpLine::Strange
}

fn all_blank(l: &[u8]) -> bool
    ensures { result ≡ every is_blank l.now }
{
    l.iter().all(|b| is_blank(*b))
}

#[tactic(auto, unfolding(megaco::specs::Sdp::another_letter))]
fn another_letter(l: &[u8]) -> bool
    ensures { result ≡ another_letter l.now }
{
    text::letter_at(l, 0)
        & !text::is_at(l, 0, b'v')
        & !text::is_at(l, 0, b'c')
        & !text::is_at(l, 0, b'm')
        & text::is_at(l, 1, b'=')
}

#[tactic(auto, unfolding(megaco::specs::Sdp::is_skipped))]
fn is_skipped(l: &[u8]) -> bool
    ensures { result ≡ is_skipped l.now }
{
    all_blank(l) | another_letter(l)
}

// Whether a line is these bytes and no more.
fn is_version(l: &[u8]) -> bool
    ensures { result ≡ same l.now (text "v=0") }
{
    l == b"v=0".as_slice()
}

#[tactic(auto, unfolding(megaco::specs::Sdp::sdp_line_of, base::specs::Pick::pick))]
fn line_of(l: &[u8]) -> SdpLine
    ensures { result ≡ sdp_line_of l.now }
{
    if is_skipped(l) {
        return SdpLine::Skipped;
    }
    if is_version(l) {
        return SdpLine::Version;
    }
    if text::is_at(l, 0, b'c') {
        return connection(l);
    }
    audio(l)
}

// ---- the text

// What the lines have been, with one more.
fn step(x: SdpStage, l: SdpLine) -> SdpStage
    ensures { result ≡ sdp_step x l }
{
    match (x, l) {
        (_, SdpLine::Skipped) => x,
        (SdpStage::NoLine, SdpLine::Version) => SdpStage::AfterVersion,
        (SdpStage::AfterVersion, SdpLine::Connection(a)) => SdpStage::AfterConnection(a),
        (SdpStage::AfterConnection(address), SdpLine::Audio { port, payload }) => {
            SdpStage::AfterAudio {
                address,
                port,
                payload,
            }
        }
        _ => SdpStage::Broken,
    }
}

fn finish(x: SdpStage) -> SdpText
    ensures { result ≡ sdp_finish x }
{
    match x {
        SdpStage::AfterAudio {
            address,
            port,
            payload,
        } => SdpText::Described {
            address,
            port,
            payload,
        },
        _ => SdpText::NotInSubset,
    }
}

// What a text says.
pub fn read(s: &[u8]) -> SdpText
    ensures { result ≡ read_sdp s.now }
{
    if s.is_empty() {
        return SdpText::EmptyText;
    }
    finish(
        s.split(|b| text::is_line_end(*b))
            .fold(SdpStage::NoLine, |x, l| step(x, line_of(l))),
    )
}
