// Whether a lent table is sound: a pass over the context words, one over the records, one over the flows, one over the lines' properties, one over
// the ephemerals', one over the ephemerals' context words against the map, one over where their speech goes.
// All but the first go on past a word that is wrong: tables are sound but for rare accidents, and without a way out the compiler takes several
// words at a time.
#![tactic(auto)]

ghost use Rattle.std.specs.Prelude.{◌≡◌, true, ◌&&◌, ◌+◌, ◌-◌, ◌*◌, ◌/◌, ◌%◌, ◌^◌, ◌≤◌, ◌<◌, length, get_or, take, drop, leb, eqb, fold};
ghost use Rattle.base.specs.Pick.{pick};
ghost use Rattle.base.specs.Lists.{every, same};
ghost use Rattle.megaco.specs.Map.{digits, marks};
ghost use Rattle.megaco.specs.Square.{bits};
ghost use Rattle.megaco.specs.Table.{contexts, is_property_word, absent_are_zero, record_is_sound, records_are_sound, flows_are_sound, Sized, sized, map_is_sound, side_is_sound, speech_is_sound, ephemeral_contexts, speech_words, sound};
ghost use Rattle.sound.specs.Parts.{ephemeral_is_sound, records_fit, flow_is_sound, flows_fit, forbidden_bits, parts_are_sound};

use table::{CHANNELS, CONTEXTS, EPHEMERALS, MOST, MOST_TERMINATIONS};

// How many context words are tested at once for null.
const AT_ONCE: usize = 32;

// How many contexts' flows are looked at together.
const TOGETHER: usize = 16;

// How many ephemerals' words of speech are looked at together: so many that the loop over them stays a loop. Unrolled, it would read each word
// by itself, and the test for 0 with it.
const SOME: usize = 16;

// The words of one ephemeral's speech.
const WORDS: usize = 8;

// Counters for contexts 0 to 128.
const COUNTERS: usize = CONTEXTS as usize + 1;

// The terminations of one line and the ephemerals.
const FEWEST_TERMINATIONS: usize = CHANNELS + EPHEMERALS as usize;

// A table of any length.
#[tactic(auto, using(crate::proofs::SoundLaws::sized_facts, crate::proofs::SoundLaws::sound_by, crate::proofs::SoundLaws::unsound))]
pub fn is_sound(table: &[u32]) -> bool
    ensures { result ≡ sound table.now }
{
    if is_sized(table) {
        return parts_are_sound(table) & map_is_sound(table) & speech_is_sound(table);
    }
    false
}

// The size of a table of 1 to 16 lines.
#[tactic(auto, using(crate::proofs::SoundLaws::sized_by))]
fn is_sized(table: &[u32]) -> bool
    ensures { result ≡ sized table.now }
{
    let n = table::terminations(table);
    (FEWEST_TERMINATIONS <= n)
        & (n <= MOST_TERMINATIONS)
        & (table.len() == table::region_start(table, 6))
}

#[tactic(auto, using(crate::proofs::SoundLaws::parts_by_lem, crate::proofs::SoundLaws::even_parts))]
fn parts_are_sound(table: &[u32]) -> bool
    requires { Sized table.now }
    ensures { result ≡ parts_are_sound table.now }
{
    let n = table::region_start(table, 1);
    let first = n - EPHEMERALS as usize;
    let records = table::region_start(table, 2);
    let map = table::region_start(table, 3);
    let flows = table::region_start(table, 4);
    let speech = table::region_start(table, 5);
    contexts_are_sound(&table[0..n], &table[records..map], &table[flows..speech])
        & lines_are_sound(&table[n..n + first])
        & ephemerals_are_sound(&table[first..n], &table[n + first..records])
}

// ---- contexts

// Each context word at most 128, and each record and its flows as its members ask. Counter c holds how many of the words passed are c; null
// is not counted, for it is most often there and has no record.
fn contexts_are_sound(row: &[u32], records: &[u32], flows: &[u32]) -> bool
    requires { (length row.now ≤ 65536) × (length records.now ≤ contexts) × (length flows.now ≡ 2 * contexts) }
    ensures { result ≡ (every (λ w. leb w contexts) row.now && (records_are_sound row.now 1 records.now && flows_are_sound row.now 1 flows.now)) }
{
    let mut counters = [0u32; COUNTERS];
    let mut i: usize = 0;
    // Kept as a `while`: the index goes on by one, or by a whole run of nulls; runs by `chunks` would want a second loop inside.
    while i < row.len() {
        let w = row[i];
        if 0 < w {
            if CONTEXTS < w {
                return false;
            }
            let c = w as usize;
            counters[c] = counters[c] + 1;
            i += 1;
        } else {
            i = past_null(row, i);
        }
    }
    fits(&counters, records, flows)
}

// Past a null and those that follow it: at the start of a run of AT_ONCE words past them all where each is null, else past one.
#[tactic(auto, using(crate::proofs::SoundLaws::null_one, crate::proofs::SoundLaws::null_all))]
fn past_null(row: &[u32], i: usize) -> usize
    requires { (i < length row.now) × (get_or row.now i 0 ≤ 0) }
    ensures { (i < result) × (result ≤ length row.now) × (every (λ w. eqb w 0) (take (result - i) (drop i row.now)) ≡ true) }
{
    if i % AT_ONCE == 0 {
        if AT_ONCE <= row.len() - i {
            if is_zero(&row[i..i + AT_ONCE]) {
                return i + AT_ONCE;
            }
        }
    }
    i + 1
}

// The records and the flows against the counters.
fn fits(counters: &[u32], records: &[u32], flows: &[u32]) -> bool
    requires { (length counters.now ≡ contexts + 1) × (length records.now ≤ contexts) × (length flows.now ≡ 2 * contexts) }
    ensures { result ≡ (records_fit counters.now 1 records.now && flows_fit counters.now 1 flows.now) }
{
    records_fit(counters, records) & flows_fit(counters, flows)
}

// The records from context 1 on against the counters.
#[tactic(auto, using(crate::proofs::SoundLaws::meet_on))]
fn records_fit(counters: &[u32], records: &[u32]) -> bool
    requires { length records.now < length counters.now }
    ensures { result ≡ records_fit counters.now 1 records.now }
{
    let mut good = true;
    for (i, held) in records.iter().enumerate() {
        good = good & record_is_sound(*held, counters[i + 1]);
    }
    good
}

#[tactic(auto, using(crate::proofs::SoundLaws::record_by))]
fn record_is_sound(held: u32, members: u32) -> bool
    ensures { result ≡ record_is_sound held members }
{
    (held <= 32) & ((members == 0) == (held == 0)) & (members as usize <= MOST)
}

// ---- flows

// The flows from context 1 on against the counters.
#[tactic(auto, using(crate::proofs::FlowLaws::some_on))]
fn flows_fit(counters: &[u32], flows: &[u32]) -> bool
    requires { (length counters.now ≡ contexts + 1) × (length flows.now ≡ 2 * contexts) }
    ensures { result ≡ flows_fit counters.now 1 flows.now }
{
    let mut good = true;
    for b in 0..CONTEXTS as usize / TOGETHER {
        let i = TOGETHER * b;
        good = good & some_fit(counters, i, &flows[2 * i..2 * i + 2 * TOGETHER]);
    }
    good
}

// The flows of the contexts after context i, TOGETHER of them: most often all are 0, and then they are sound whoever the members are.
#[tactic(auto, using(crate::proofs::FlowLaws::none_fit))]
fn some_fit(counters: &[u32], i: usize, flows: &[u32]) -> bool
    requires { (i + 16 < length counters.now) × (length flows.now ≡ 32) }
    ensures { result ≡ flows_fit counters.now (i + 1) flows.now }
{
    if is_zero(flows) {
        return true;
    }
    each_fits(counters, i, flows)
}

// Whether all words are 0.
#[tactic(auto, using(std::proofs::lemmas::Grind::common_steps, crate::proofs::FoldLaws::every_is))]
pub fn is_zero(row: &[u32]) -> bool
    ensures { result ≡ every (λ w. eqb w 0) row.now }
{
    row.iter().fold(true, |good, w| good & (*w == 0))
}

#[tactic(auto, using(crate::proofs::FlowLaws::flows_start, crate::proofs::FlowLaws::flows_on))]
fn each_fits(counters: &[u32], i: usize, flows: &[u32]) -> bool
    requires { (i + 16 < length counters.now) × (length flows.now ≡ 32) }
    ensures { result ≡ flows_fit counters.now (i + 1) flows.now }
{
    let mut good = true;
    for k in 0..TOGETHER {
        good = good & flow_is_sound(counters[i + k + 1], flows[2 * k], flows[2 * k + 1]);
    }
    good
}

// The two words of a context with so many members: no bit of theirs is one that must be 0.
#[tactic(auto, using(crate::proofs::FlowLaws::flow_by))]
fn flow_is_sound(members: u32, low: u32, high: u32) -> bool
    ensures { result ≡ flow_is_sound members low high }
{
    let w = (low as u64) + (high as u64) * 4294967296;
    w & forbidden(members) == 0
}

// The bits that must be 0, those of row 0 lowest: the diagonal and the places that so many members leave unused.
#[tactic(auto, using(crate::proofs::FlowLaws::forbidden_rest), unfolding(megaco::specs::Square::bits, crate::specs::Parts::forbidden_bits, crate::specs::Parts::forbidden_rows, crate::specs::Parts::forbidden_row, megaco::specs::Square::may_flow))]
fn forbidden(members: u32) -> u64
    ensures { bits 64 result ≡ forbidden_bits members }
{
    match members {
        0 => 0xffffffffffffffff,
        1 => 0xffffffffffffffff,
        2 => 0xfffffffffffffefd,
        3 => 0xfffffffffffcfaf9,
        4 => 0xfffffffff8f4f2f1,
        5 => 0xfffffff0e8e4e2e1,
        6 => 0xffffe0d0c8c4c2c1,
        7 => 0xffc0a09088848281,
        _ => 0x8040201008040201,
    }
}

// ---- properties

#[tactic(auto, unfolding(megaco::specs::Table::is_property_word))]
fn is_property_word(word: u32) -> bool
    ensures { result ≡ is_property_word word }
{
    (word % 8 <= 4) & (word / 8 <= 2)
}

#[tactic(auto, using(std::proofs::lemmas::Grind::common_steps, crate::proofs::FoldLaws::every_is))]
fn lines_are_sound(properties: &[u32]) -> bool
    ensures { result ≡ every is_property_word properties.now }
{
    properties
        .iter()
        .fold(true, |good, w| good & is_property_word(*w))
}

// A property word, and 0 where the context word is 0.
#[tactic(auto, unfolding(crate::specs::Parts::ephemeral_is_sound))]
fn ephemeral_is_sound(context: u32, word: u32) -> bool
    ensures { result ≡ ephemeral_is_sound context word }
{
    is_property_word(word) & !((context == 0) & (word != 0))
}

#[tactic(auto, using(crate::proofs::SoundLaws::pair_on))]
fn ephemerals_are_sound(row: &[u32], properties: &[u32]) -> bool
    requires { length row.now ≡ length properties.now }
    ensures { result ≡ (every is_property_word properties.now && absent_are_zero row.now properties.now) }
{
    let mut good = true;
    for (i, context) in row.iter().enumerate() {
        good = good & ephemeral_is_sound(*context, properties[i]);
    }
    good
}

// ---- the map

// Whether binary digit b of a word of the map is 1 exactly where x is not 0.
#[tactic(auto, using(crate::proofs::SoundLaws::digit_sound))]
fn digit_is_sound(word: u32, b: u32, x: u32) -> bool
    requires { b < 32 }
    ensures { result ≡ eqb (word / 2 ^ b % 2) (pick (eqb x 0) 0 1) }
{
    ((word >> b) % 2 == 1) == (x != 0)
}

// A word of the map against its 32 context words.
#[tactic(auto, using(crate::proofs::SoundLaws::half_start, crate::proofs::SoundLaws::half_on))]
fn half_is_sound(row: &[u32], word: u32) -> bool
    requires { length row.now ≡ 32 }
    ensures { result ≡ same (digits 32 word) (marks row.now) }
{
    let mut good = true;
    for (i, x) in row.iter().enumerate() {
        good = good & digit_is_sound(word, i as u32, *x);
    }
    good
}

#[tactic(auto, using(crate::proofs::SoundLaws::map_by))]
fn map_is_sound(table: &[u32]) -> bool
    requires { Sized table.now }
    ensures { result ≡ map_is_sound table.now }
{
    let n = table::terminations(table);
    let first = n - EPHEMERALS as usize;
    let middle = n - 32;
    let a = table::region_start(table, 3);
    half_is_sound(&table[first..middle], table::word_at(table, a))
        & half_is_sound(&table[middle..n], table::word_at(table, a + 1))
}

// ---- where speech goes

// One side of an ephemeral's speech: four zeros, or 1, an address, a port and a payload type where the ephemeral exists.
#[tactic(auto, using(crate::proofs::SpeechLaws::side_none, crate::proofs::SpeechLaws::side_some))]
fn side_is_sound(context: u32, flag: u32, address: u32, port: u32, payload: u32) -> bool
    ensures { result ≡ side_is_sound context flag address port payload }
{
    if flag == 0 {
        return (address == 0) & (port == 0) & (payload == 0);
    }
    (flag == 1) & (context != 0) & (port <= 65535) & (payload <= 127)
}

// The speech of SOME ephemerals, one after the other.
#[tactic(auto, using(crate::proofs::SpeechLaws::each_on))]
fn each_speech(row: &[u32], speech: &[u32]) -> bool
    requires { (length row.now ≡ 16) × (length speech.now ≡ 128) }
    ensures { result ≡ speech_is_sound row.now speech.now }
{
    let mut good = true;
    for k in 0..SOME {
        let c = row[k];
        let a = WORDS * k;
        let local = side_is_sound(c, speech[a], speech[a + 1], speech[a + 2], speech[a + 3]);
        let remote = side_is_sound(
            c,
            speech[a + 4],
            speech[a + 5],
            speech[a + 6],
            speech[a + 7],
        );
        good = good & (local & remote);
    }
    good
}

// The speech of SOME ephemerals: most often no word is set, and that is sound wherever they stand.
#[tactic(auto, using(crate::proofs::SpeechLaws::none_speak))]
fn some_speech(row: &[u32], speech: &[u32]) -> bool
    requires { (length row.now ≡ 16) × (length speech.now ≡ 128) }
    ensures { result ≡ speech_is_sound row.now speech.now }
{
    let first = is_zero(&speech[0..32]) & is_zero(&speech[32..64]);
    let second = is_zero(&speech[64..96]) & is_zero(&speech[96..128]);
    if first & second {
        return true;
    }
    each_speech(row, speech)
}

// The speech of all ephemerals.
#[tactic(auto, using(crate::proofs::SpeechLaws::all_on))]
fn all_speech(row: &[u32], speech: &[u32]) -> bool
    requires { (length row.now ≡ 64) × (length speech.now ≡ 512) }
    ensures { result ≡ speech_is_sound row.now speech.now }
{
    let mut good = true;
    for b in 0..EPHEMERALS as usize / SOME {
        let i = SOME * b;
        let a = WORDS * i;
        good = good & some_speech(&row[i..i + SOME], &speech[a..a + WORDS * SOME]);
    }
    good
}

#[tactic(auto, using(crate::proofs::SpeechLaws::speech_by_lem))]
fn speech_is_sound(table: &[u32]) -> bool
    requires { Sized table.now }
    ensures { result ≡ speech_is_sound (ephemeral_contexts table.now) (speech_words table.now) }
{
    let n = table::region_start(table, 1);
    let first = n - EPHEMERALS as usize;
    let a = table::region_start(table, 5);
    all_speech(&table[first..n], &table[a..table.len()])
}
