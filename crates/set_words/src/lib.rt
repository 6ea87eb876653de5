// The words of a set, made and taken apart: no other code knows their bits.
#![tactic(auto)]

mod kinds;

ghost use Rattle.std.specs.Prelude.{◌≡◌, suc, ◌<◌, eqb};
ghost use Rattle.model.specs.Set.{device_of, is_claim};
ghost use Rattle.model.specs.Layout.{word, kind_of, field_of, device_bits, extra_bits, DEVICE, END, action_word, action_of};
ghost use Rattle.model.specs.Clean.{renamed};
ghost use Rattle.set_words.specs.Kinds.{kind_named, number_of};

pub use kinds::Kind;

// Words with field 0.
const DEVICE_WORD: u32 = Kind::Device as u32 * model::FIELDS;

const CLAIM_WORD: u32 = Kind::Claim as u32 * model::FIELDS;

const RELEASE_WORD: u32 = Kind::Release as u32 * model::FIELDS;

const END_WORD: u32 = Kind::End as u32 * model::FIELDS;

// The number that stands for the kind of a word, which may be no kind's.
pub fn kind(word: u32) -> u32
    ensures { result ≡ kind_of word }
{
    word / model::FIELDS
}

// The kind of a word by name, None where its number is no kind's.
pub fn named_kind(word: u32) -> Option<Kind>
    ensures { result ≡ kind_named (kind_of word) }
{
    Kind::named(kind(word))
}

// Whether a word is of a kind.
pub fn has_kind(word: u32, wanted: Kind) -> bool
    ensures { result ≡ eqb (kind_of word) (number_of wanted) }
{
    kind(word) == wanted.number()
}

// The field of a word.
pub fn field(word: u32) -> u32
    ensures { result ≡ field_of word }
{
    word % model::FIELDS
}

// Whether the word of an action is a claim.
pub fn is_claim(word: u32) -> bool
    ensures { result ≡ is_claim (action_of word) }
{
    has_kind(word, Kind::Claim)
}

// The device in a CLAIM's field, beside its units.
pub fn device_bits(field: u32) -> u32
    ensures { result ≡ device_bits field }
{
    field % model::DEVICES
}

// The device that the word of an action names: a RELEASE's is its whole field.
pub fn device(word: u32) -> u32
    ensures { result ≡ device_of (action_of word) }
{
    if is_claim(word) {
        return device_bits(field(word));
    }
    field(word)
}

// The units beside the first, by the word of a CLAIM or its field.
fn extra_units(word: u32) -> u32
    ensures { result ≡ extra_bits word }
{
    word / model::DEVICES % model::EXTRA_UNITS
}

// The same of an action of a set, in one step: no device of a set has a bit above a CLAIM's, so a RELEASE's field has none either. For the passes that do it at every state.
pub fn device_in_set(word: u32) -> u32
    requires { device_of (action_of word) < 16 }
    ensures { result ≡ device_of (action_of word) }
{
    device_bits(word)
}

// The units that a CLAIM takes, by its word or its field. They can be 256, one more than a byte holds.
pub fn units(word: u32) -> u32
    ensures { result ≡ suc (extra_bits word) }
{
    extra_units(word) + 1
}

// The word of an action with another number for its device and the units that it has.
pub fn with_device(action: u32, device: u8) -> u32
    ensures { result ≡ action_word (renamed (λ d. device) (action_of action)) }
{
    if is_claim(action) {
        return CLAIM_WORD + extra_units(action) * model::DEVICES + device as u32;
    }
    RELEASE_WORD + device as u32
}

// A DEVICE of a capacity.
pub fn declared(capacity: u8) -> u32
    ensures { result ≡ word DEVICE capacity }
{
    DEVICE_WORD + capacity as u32
}

// The last word of a set or a plan, after so many.
pub fn end(before: usize) -> u32
    requires { before < 268435456 }
    ensures { result ≡ word END before }
{
    END_WORD + before as u32
}
