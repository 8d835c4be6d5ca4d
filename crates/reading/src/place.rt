// The place of a word's operation in the table, Tables 3.16 and 3.18. Of a word of no table it is 512, and no None: the
// definition place_of has it so.
ghost use Rattle.std.specs.Prelude.{◌≡◌, ◌<◌, cond, eqb, ltb};
ghost use Rattle.fields.specs.Fields.{bits};
ghost use Rattle.ops.specs.Places as place;
ghost use Rattle.reading.specs.Ahead.{other_block};
ghost use Rattle.reading.specs.Reading.{place_in, place_of, msa_block};
ghost use Rattle.reading.specs.Reading as reading;

// I8, under the minor opcodes 0 and 1, and SHF, whose bits 25..24 are its format, under 2.
fn i8_place(w: u32) -> u32
    ensures { (result ≡ place_in (cond (ltb (bits w 5 0) 2) reading.i8 reading.shf) w) × (result < 17) }
{
    let m = w % 64;
    if m < 2 {
        return m * 8 + w / 16777216 % 4;
    }
    16
}

// ELM, under the minor opcode 25.
fn elm_place(w: u32) -> u32
    ensures { (result ≡ place_in (cond (eqb (bits w 21 16) 62) reading.elm62 reading.elm) w) × (result < 352) }
{
    if w / 65536 % 64 == 62 {
        return 336 + w / 4194304 % 16;
    }
    320 + w / 4194304 % 16
}

// VEC, under the minor opcode 30, and 2R.
fn vec_place(w: u32) -> u32
    ensures { (result ≡ place_in (cond (eqb (bits w 25 21) 24) reading.two reading.vec) w) × (result < 440) }
{
    if w / 2097152 % 32 == 24 {
        return 432 + w / 262144 % 8;
    }
    352 + w / 2097152 % 32
}

// The minor opcodes from 25 on.
fn high_place(w: u32) -> u32
    ensures { (result ≡ place_in (reading.high_block w) w) × (result < 513) }
{
    let m = w % 64;
    if m < 26 {
        return elm_place(w);
    }
    if m < 29 {
        return 384 + (m - 26) * 16 + w / 4194304 % 16;
    }
    if m == 30 {
        return vec_place(w);
    }
    if m < 32 {
        return 512;
    }
    if m < 40 {
        return m / 4 * 32;
    }
    512
}

// The major opcode 011110.
pub fn msa_place(w: u32) -> u32
    ensures { (result ≡ place_in (msa_block w) w) × (result < 513) }
{
    let m = w % 64;
    if m < 3 {
        return i8_place(w);
    }
    if m < 25 {
        return m * 8 + w / 8388608 % 8;
    }
    high_place(w)
}

// The other major opcodes.
pub fn other_place(w: u32) -> u32
    ensures { (result ≡ place_in (other_block w) w) × (result < 513) }
{
    let major = w / 67108864 % 64;
    if major == 17 {
        return 440 + w / 8388608 % 8;
    }
    if major == 0 {
        return 448 + w % 64;
    }
    512
}

pub fn place_of(w: u32) -> u16
    ensures { result ≡ place_of w }
{
    if w / 67108864 % 64 == 30 {
        return msa_place(w) as u16;
    }
    other_place(w) as u16
}
