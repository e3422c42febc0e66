// One word as a packet header, and what one data word does to the reading.
ghost use Rattle.std.specs.Prelude.{◌≡◌, true, ◌/◌, ◌%◌, ◌<◌};
ghost use Rattle.packets.specs.Types.{Type1, Type2};
ghost use Rattle.packets.specs.Header.{in_set, register_ok, plain_register, type1_of, type2_of, head_of, effect_of};

pub const CMD: u32 = 4;

pub const WBSTAR: u32 = 16;

// The header of a no-operation: there is but one.
pub const NOP: u32 = 0x2000_0000;

// The word to CMD that ends the reading.
pub const DESYNC: u32 = 0x0000_000D;

const IPROG: u32 = 0x0000_000F;

// What a word says as a header.
// Stays: head_of holds it: Fault is a case of its own in document 01's rules.
#[derive(Clone, Copy, PartialEq, Eq)]
pub enum Header {
    Nop,
    Type1 { register: u32, count: u32 },
    Type2 { count: u32 },
    Fault,
}

// What a data word does to the reading.
#[derive(Clone, Copy, PartialEq, Eq)]
pub enum Effect {
    GoesOn,
    Desync,
    Iprog,
}

// The registers that a write header may name, a bit for each.
const REGISTERS: u32 = 0x7FFF + (1 << 16) + (1 << 17) + (1 << 22) + (1 << 24) + (1 << 31);

// Those of them whose words are only counted.
const PLAIN: u32 = REGISTERS - (1 << CMD) - (1 << WBSTAR);

// Is this register among those that have a bit each? Tests of its number, one after another, would be a branch each, which a
// processor guesses wrong where registers come in no order.
fn is_in(registers: u32, register: u32) -> bool
    requires { register < 32 }
    ensures { result ≡ in_set registers register }
{
    (registers >> register) % 2 == 1
}

// May a write header name this register?
// Stays: no plainer: a register is a remainder by 32 where it is read off a word; a type with that bound would be taken apart at each
// shift, here and in `fastpath`.
pub fn register_ok(register: u32) -> bool
    requires { register < 32 }
    ensures { result ≡ register_ok register }
{
    is_in(REGISTERS, register)
}

// May a write header name this register, and are its words only counted? One test in place of three: it may be named, it is
// not CMD, it is not WBSTAR.
pub fn is_plain_register(register: u32) -> bool
    requires { register < 32 }
    ensures { result ≡ plain_register register }
{
    is_in(PLAIN, register)
}

#[tactic(auto, unfolding(crate::specs::Header::type1_of, base::specs::Question::ask))]
fn type1(word: u32) -> Header
    ensures { result ≡ type1_of word }
{
    if word / 0x0004_0000 % 512 != 0 {
        return Header::Fault;
    }
    if word / 0x0800 % 4 != 0 {
        return Header::Fault;
    }
    let operation = word / 0x0800_0000 % 4;
    let register = word / 0x2000 % 32;
    let count = word % 0x0800;
    if operation == 2 {
        if register_ok(register) {
            return Header::Type1 { register, count };
        }
        return Header::Fault;
    }
    if operation != 0 {
        return Header::Fault;
    }
    if register != 0 {
        return Header::Fault;
    }
    if count != 0 {
        return Header::Fault;
    }
    Header::Nop
}

#[tactic(auto, unfolding(crate::specs::Header::type2_of, base::specs::Question::ask))]
fn type2(word: u32) -> Header
    ensures { result ≡ type2_of word }
{
    if word / 0x0800_0000 % 4 != 2 {
        return Header::Fault;
    }
    Header::Type2 {
        count: word % 0x0800_0000,
    }
}

#[tactic(auto, unfolding(crate::specs::Header::head_of, base::specs::Question::ask))]
pub fn header_of(word: u32) -> Header
    ensures { result ≡ head_of word }
{
    match word / 0x2000_0000 {
        1 => type1(word),
        2 => type2(word),
        _ => Header::Fault,
    }
}

// Is this the header of a type 1 write, if the register that it names may be written? A yes is sure; after a no,
// `header_of` decides. Here and below the word is compared whole, not field by field, so that it is loaded at once where
// many headers are looked at.
#[tactic(auto, using(crate::proofs::HeaderLaws::type1_write))]
pub fn is_type1_form(word: u32) -> bool
    ensures { result ≡ true → register_ok (word / 8192 % 32) ≡ true → head_of word ≡ Type1 (word / 8192 % 32) (word % 2048) }
{
    word / 0x0004_0000 == 0x0C00 && word % 0x2000 < 0x0800
}

// Is this the header of a type 1 write? A yes is sure here too.
pub fn is_type1_write(word: u32) -> bool
    ensures { result ≡ true → head_of word ≡ Type1 (word / 8192 % 32) (word % 2048) }
{
    is_type1_form(word) && register_ok(word / 0x2000 % 32)
}

// Is this the header of a type 2 write with data words? A yes is sure here too. That the count is not 0 is asked so that the
// bounds are of the whole word: by its highest bits alone it would be loaded byte by byte.
#[tactic(auto, using(crate::proofs::HeaderLaws::type2_write))]
pub fn is_type2_write(word: u32) -> bool
    ensures { result ≡ true → head_of word ≡ Type2 (word % 134217728) }
{
    0x5000_0000 < word && word < 0x5800_0000
}

// Most commands are below the two that do not let it go on: one comparison passes them. It is of the whole word, which is then
// loaded at once; for the two values alone it would be loaded byte by byte.
#[tactic(auto, unfolding(crate::specs::Header::effect_of, base::specs::Question::ask))]
pub fn effect_of(register: u32, word: u32) -> Effect
    ensures { result ≡ effect_of register word }
{
    if register != CMD {
        return Effect::GoesOn;
    }
    if word < DESYNC {
        return Effect::GoesOn;
    }
    if word == DESYNC {
        return Effect::Desync;
    }
    if word == IPROG {
        return Effect::Iprog;
    }
    Effect::GoesOn
}
