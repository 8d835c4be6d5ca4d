// The mnemonics by place. Of each row of the table that has a name the text has a line, a cell for each of its eight
// places: the name's length, and eight bytes.
#![tactic(auto)]

ghost use Rattle.std.specs.Prelude.{◌≡◌, ◌+◌, ◌<◌, ◌≤◌, length, take, drop, MatchOption};
ghost use Rattle.ops.specs.Table.{mnemonic};
ghost use Rattle.text.specs.Text.{Room, Puts};
ghost use Rattle.mnemonics.specs.Lines.{line_of};

use text::put_text;

// Writes the part of the text that starts at a place and is n bytes long.
fn put_part(line: &mut [u8], at: usize, text: &[u8], from: usize, n: usize) -> usize
    requires { (from + n ≤ length text.now) × Room line.old at (take n (drop from text.now)) }
    ensures { Puts line.old at (take n (drop from text.now)) line.new result }
{
    put_text(line, at, &text[from..from + n])
}

// The line of a row of the table, where one of its places has a name: a letter a row, from a on and { after z, or |
// where none has.
fn line_of(m: usize) -> Option<usize>
    ensures { MatchOption result (line_of m ≡ 27) (λ row. (row ≡ line_of m) × (row < 27)) }
{
    let letter = *b"abc|||de|fg||hijklmnop||||||||||q|||r|||s|t|u|||||||vwxyz|{|||||".get(m)?;
    if letter == b'|' {
        return None;
    }
    Some(usize::from(letter - b'a'))
}

// The mnemonic of place k; a place without one writes nothing.
pub fn put_name(line: &mut [u8], at: usize, k: usize) -> usize
    requires { Room line.old at (mnemonic k) }
    ensures { Puts line.old at (mnemonic k) line.new result }
{
    let Some(row) = line_of(k / 8) else {
        return at;
    };
    let text = b"4ANDI    3ORI     4NORI    4XORI    0        0        0        0        \
5BMNZI   4BMZI    5BSELI   0        0        0        0        0        \
3SHF     0        0        0        0        0        0        0        \
5ADDVI   5SUBVI   6MAXI_S  6MAXI_U  6MINI_S  6MINI_U  0        0        \
4CEQI    0        6CLTI_S  6CLTI_U  6CLEI_S  6CLEI_U  3LDI     0        \
4SLLI    4SRAI    4SRLI    5BCLRI   5BSETI   5BNEGI   6BINSLI  6BINSRI  \
5SAT_S   5SAT_U   5SRARI   5SRLRI   0        0        0        0        \
3SLL     3SRA     3SRL     4BCLR    4BSET    4BNEG    5BINSL   5BINSR   \
4ADDV    4SUBV    5MAX_S   5MAX_U   5MIN_S   5MIN_U   5MAX_A   5MIN_A   \
3CEQ     0        5CLT_S   5CLT_U   5CLE_S   5CLE_U   0        0        \
5ADD_A   6ADDS_A  6ADDS_S  6ADDS_U  5AVE_S   5AVE_U   6AVER_S  6AVER_U  \
6SUBS_S  6SUBS_U  8SUBSUS_U8SUBSUU_S6ASUB_S  6ASUB_U  0        0        \
4MULV    5MADDV   5MSUBV   0        5DIV_S   5DIV_U   5MOD_S   5MOD_U   \
6DOTP_S  6DOTP_U  7DPADD_S 7DPADD_U 7DPSUB_S 7DPSUB_U 0        0        \
3SLD     5SPLAT   5PCKEV   5PCKOD   4ILVL    4ILVR    5ILVEV   5ILVOD   \
4VSHF    4SRAR    4SRLR    0        6HADD_S  6HADD_U  6HSUB_S  6HSUB_U  \
2LD      0        0        0        0        0        0        0        \
2ST      0        0        0        0        0        0        0        \
4SLDI    6SPLATI  6COPY_S  6COPY_U  6INSERT  5INSVE   0        0        \
6CTCMSA  6CFCMSA  4MOVE    0        0        0        0        0        \
3AND     2OR      3NOR     3XOR     4BMNZ    3BMZ     4BSEL    0        \
0        0        0        0        5MUL_Q   6MADD_Q  6MSUB_Q  0        \
0        0        0        0        6MULR_Q  7MADDR_Q 7MSUBR_Q 0        \
4FILL    4PCNT    4NLOC    4NLZC    0        0        0        0        \
0        0        2BZ      3BNZ     0        0        2BZ      3BNZ     \
0        0        0        0        0        3LSA     0        0        \
0        0        0        0        0        4DLSA    0        0        ";
    let cell = 8 * row + k % 8;
    let n = usize::from(text[9 * cell] - b'0');
    put_part(line, at, text, 9 * cell + 1, n)
}
