//! The table of all forms of instructions.

ghost use Rattle.std.specs.Prelude.{◌≡◌, map};
ghost use Rattle.instruction_text.specs.Forms.{arithmetic_forms, atomic_operation_forms, form_of, jump_forms, memory_forms, other_arithmetic_forms, other_forms};

/// A form: the code, the source register, the offset, the immediate and the text.
///
/// Capital letters in the text stand for fields, as `piece_of` says. The source register, the
/// offset and the immediate count where the text names no such field. The destination register is 0
/// where the text doesn't name it.
pub(crate) struct Row(
    pub(crate) u8,
    pub(crate) u8,
    pub(crate) i16,
    pub(crate) i32,
    pub(crate) &'static [u8],
);

impl Row {
    pub(crate) fn code(&self) -> u8
        ensures { result ≡ (form_of self.now).code }
    {
        self.0
    }

    pub(crate) fn text(&self) -> &'static [u8]
        ensures { result.now ≡ (form_of self.now).template }
    {
        self.4
    }
}

static ARITHMETIC_ROWS: [Row; 48] = [
    Row(0x0f, 0, 0, 0, b"rD += rS"),
    Row(0x07, 0, 0, 0, b"rD += I"),
    Row(0x0c, 0, 0, 0, b"wD += wS"),
    Row(0x04, 0, 0, 0, b"wD += I"),
    Row(0x1f, 0, 0, 0, b"rD -= rS"),
    Row(0x17, 0, 0, 0, b"rD -= I"),
    Row(0x1c, 0, 0, 0, b"wD -= wS"),
    Row(0x14, 0, 0, 0, b"wD -= I"),
    Row(0x2f, 0, 0, 0, b"rD *= rS"),
    Row(0x27, 0, 0, 0, b"rD *= I"),
    Row(0x2c, 0, 0, 0, b"wD *= wS"),
    Row(0x24, 0, 0, 0, b"wD *= I"),
    Row(0x3f, 0, 0, 0, b"rD /= rS"),
    Row(0x37, 0, 0, 0, b"rD /= I"),
    Row(0x3c, 0, 0, 0, b"wD /= wS"),
    Row(0x34, 0, 0, 0, b"wD /= I"),
    Row(0x4f, 0, 0, 0, b"rD |= rS"),
    Row(0x47, 0, 0, 0, b"rD |= I"),
    Row(0x4c, 0, 0, 0, b"wD |= wS"),
    Row(0x44, 0, 0, 0, b"wD |= I"),
    Row(0x5f, 0, 0, 0, b"rD &= rS"),
    Row(0x57, 0, 0, 0, b"rD &= I"),
    Row(0x5c, 0, 0, 0, b"wD &= wS"),
    Row(0x54, 0, 0, 0, b"wD &= I"),
    Row(0x6f, 0, 0, 0, b"rD <<= rS"),
    Row(0x67, 0, 0, 0, b"rD <<= I"),
    Row(0x6c, 0, 0, 0, b"wD <<= wS"),
    Row(0x64, 0, 0, 0, b"wD <<= I"),
    Row(0x7f, 0, 0, 0, b"rD >>= rS"),
    Row(0x77, 0, 0, 0, b"rD >>= I"),
    Row(0x7c, 0, 0, 0, b"wD >>= wS"),
    Row(0x74, 0, 0, 0, b"wD >>= I"),
    Row(0x9f, 0, 0, 0, b"rD %= rS"),
    Row(0x97, 0, 0, 0, b"rD %= I"),
    Row(0x9c, 0, 0, 0, b"wD %= wS"),
    Row(0x94, 0, 0, 0, b"wD %= I"),
    Row(0xaf, 0, 0, 0, b"rD ^= rS"),
    Row(0xa7, 0, 0, 0, b"rD ^= I"),
    Row(0xac, 0, 0, 0, b"wD ^= wS"),
    Row(0xa4, 0, 0, 0, b"wD ^= I"),
    Row(0xbf, 0, 0, 0, b"rD = rS"),
    Row(0xb7, 0, 0, 0, b"rD = I"),
    Row(0xbc, 0, 0, 0, b"wD = wS"),
    Row(0xb4, 0, 0, 0, b"wD = I"),
    Row(0xcf, 0, 0, 0, b"rD s>>= rS"),
    Row(0xc7, 0, 0, 0, b"rD s>>= I"),
    Row(0xcc, 0, 0, 0, b"wD s>>= wS"),
    Row(0xc4, 0, 0, 0, b"wD s>>= I"),
];

static OTHER_ARITHMETIC_ROWS: [Row; 25] = [
    Row(0x3f, 0, 1, 0, b"rD s/= rS"),
    Row(0x37, 0, 1, 0, b"rD s/= I"),
    Row(0x3c, 0, 1, 0, b"wD s/= wS"),
    Row(0x34, 0, 1, 0, b"wD s/= I"),
    Row(0x9f, 0, 1, 0, b"rD s%= rS"),
    Row(0x97, 0, 1, 0, b"rD s%= I"),
    Row(0x9c, 0, 1, 0, b"wD s%= wS"),
    Row(0x94, 0, 1, 0, b"wD s%= I"),
    Row(0xbf, 0, 8, 0, b"rD = (s8)rS"),
    Row(0xbf, 0, 16, 0, b"rD = (s16)rS"),
    Row(0xbf, 0, 32, 0, b"rD = (s32)rS"),
    Row(0xbc, 0, 8, 0, b"wD = (s8)wS"),
    Row(0xbc, 0, 16, 0, b"wD = (s16)wS"),
    Row(0xbf, 0, 1, 0, b"rD = addr_space_cast(rS, T, F)"),
    Row(0x87, 0, 0, 0, b"rD = -rD"),
    Row(0x84, 0, 0, 0, b"wD = -wD"),
    Row(0xd4, 0, 0, 16, b"rD = le16 rD"),
    Row(0xd4, 0, 0, 32, b"rD = le32 rD"),
    Row(0xd4, 0, 0, 64, b"rD = le64 rD"),
    Row(0xdc, 0, 0, 16, b"rD = be16 rD"),
    Row(0xdc, 0, 0, 32, b"rD = be32 rD"),
    Row(0xdc, 0, 0, 64, b"rD = be64 rD"),
    Row(0xd7, 0, 0, 16, b"rD = bswap16 rD"),
    Row(0xd7, 0, 0, 32, b"rD = bswap32 rD"),
    Row(0xd7, 0, 0, 64, b"rD = bswap64 rD"),
];

static MEMORY_ROWS: [Row; 24] = [
    Row(0x71, 0, 0, 0, b"rD = *(u8 *)(rS O)"),
    Row(0x73, 0, 0, 0, b"*(u8 *)(rD O) = rS"),
    Row(0x72, 0, 0, 0, b"*(u8 *)(rD O) = I"),
    Row(0x69, 0, 0, 0, b"rD = *(u16 *)(rS O)"),
    Row(0x6b, 0, 0, 0, b"*(u16 *)(rD O) = rS"),
    Row(0x6a, 0, 0, 0, b"*(u16 *)(rD O) = I"),
    Row(0x61, 0, 0, 0, b"rD = *(u32 *)(rS O)"),
    Row(0x63, 0, 0, 0, b"*(u32 *)(rD O) = rS"),
    Row(0x62, 0, 0, 0, b"*(u32 *)(rD O) = I"),
    Row(0x79, 0, 0, 0, b"rD = *(u64 *)(rS O)"),
    Row(0x7b, 0, 0, 0, b"*(u64 *)(rD O) = rS"),
    Row(0x7a, 0, 0, 0, b"*(u64 *)(rD O) = I"),
    Row(0x91, 0, 0, 0, b"rD = *(s8 *)(rS O)"),
    Row(0x30, 0, 0, 0, b"r0 = *(u8 *)skb[I]"),
    Row(0x50, 0, 0, 0, b"r0 = *(u8 *)skb[rS]"),
    Row(0x50, 0, 0, 0, b"r0 = *(u8 *)skb[rS M]"),
    Row(0x89, 0, 0, 0, b"rD = *(s16 *)(rS O)"),
    Row(0x28, 0, 0, 0, b"r0 = *(u16 *)skb[I]"),
    Row(0x48, 0, 0, 0, b"r0 = *(u16 *)skb[rS]"),
    Row(0x48, 0, 0, 0, b"r0 = *(u16 *)skb[rS M]"),
    Row(0x81, 0, 0, 0, b"rD = *(s32 *)(rS O)"),
    Row(0x20, 0, 0, 0, b"r0 = *(u32 *)skb[I]"),
    Row(0x40, 0, 0, 0, b"r0 = *(u32 *)skb[rS]"),
    Row(0x40, 0, 0, 0, b"r0 = *(u32 *)skb[rS M]"),
];

static ATOMIC_ROWS: [Row; 28] = [
    Row(0xdb, 0, 0, 0, b"lock *(u64 *)(rD O) += rS"),
    Row(0xdb, 0, 0, 1, b"rS = atomic_fetch_add((u64 *)(rD O), rS)"),
    Row(0xdb, 0, 0, 64, b"lock *(u64 *)(rD O) |= rS"),
    Row(0xdb, 0, 0, 0x41, b"rS = atomic_fetch_or((u64 *)(rD O), rS)"),
    Row(0xdb, 0, 0, 0x50, b"lock *(u64 *)(rD O) &= rS"),
    Row(
        0xdb,
        0,
        0,
        0x51,
        b"rS = atomic_fetch_and((u64 *)(rD O), rS)",
    ),
    Row(0xdb, 0, 0, 0xa0, b"lock *(u64 *)(rD O) ^= rS"),
    Row(
        0xdb,
        0,
        0,
        0xa1,
        b"rS = atomic_fetch_xor((u64 *)(rD O), rS)",
    ),
    Row(0xc3, 0, 0, 0, b"lock *(u32 *)(rD O) += wS"),
    Row(0xc3, 0, 0, 1, b"wS = atomic_fetch_add((u32 *)(rD O), wS)"),
    Row(0xc3, 0, 0, 64, b"lock *(u32 *)(rD O) |= wS"),
    Row(0xc3, 0, 0, 0x41, b"wS = atomic_fetch_or((u32 *)(rD O), wS)"),
    Row(0xc3, 0, 0, 0x50, b"lock *(u32 *)(rD O) &= wS"),
    Row(
        0xc3,
        0,
        0,
        0x51,
        b"wS = atomic_fetch_and((u32 *)(rD O), wS)",
    ),
    Row(0xc3, 0, 0, 0xa0, b"lock *(u32 *)(rD O) ^= wS"),
    Row(
        0xc3,
        0,
        0,
        0xa1,
        b"wS = atomic_fetch_xor((u32 *)(rD O), wS)",
    ),
    Row(0xdb, 0, 0, 0xe1, b"rS = xchg_64(rD O, rS)"),
    Row(0xdb, 0, 0, 0xf1, b"r0 = cmpxchg_64(rD O, r0, rS)"),
    Row(0xc3, 0, 0, 0xe1, b"wS = xchg32_32(rD O, wS)"),
    Row(0xc3, 0, 0, 0xf1, b"w0 = cmpxchg32_32(rD O, w0, wS)"),
    Row(0xd3, 0, 0, 0x100, b"wD = load_acquire((u8 *)(rS O))"),
    Row(0xd3, 0, 0, 0x110, b"store_release((u8 *)(rD O), wS)"),
    Row(0xcb, 0, 0, 0x100, b"wD = load_acquire((u16 *)(rS O))"),
    Row(0xcb, 0, 0, 0x110, b"store_release((u16 *)(rD O), wS)"),
    Row(0xc3, 0, 0, 0x100, b"wD = load_acquire((u32 *)(rS O))"),
    Row(0xc3, 0, 0, 0x110, b"store_release((u32 *)(rD O), wS)"),
    Row(0xdb, 0, 0, 0x100, b"rD = load_acquire((u64 *)(rS O))"),
    Row(0xdb, 0, 0, 0x110, b"store_release((u64 *)(rD O), rS)"),
];

static JUMP_ROWS: [Row; 44] = [
    Row(0x1d, 0, 0, 0, b"if rD == rS goto J"),
    Row(0x15, 0, 0, 0, b"if rD == I goto J"),
    Row(0x1e, 0, 0, 0, b"if wD == wS goto J"),
    Row(0x16, 0, 0, 0, b"if wD == I goto J"),
    Row(0x2d, 0, 0, 0, b"if rD > rS goto J"),
    Row(0x25, 0, 0, 0, b"if rD > I goto J"),
    Row(0x2e, 0, 0, 0, b"if wD > wS goto J"),
    Row(0x26, 0, 0, 0, b"if wD > I goto J"),
    Row(0x3d, 0, 0, 0, b"if rD >= rS goto J"),
    Row(0x35, 0, 0, 0, b"if rD >= I goto J"),
    Row(0x3e, 0, 0, 0, b"if wD >= wS goto J"),
    Row(0x36, 0, 0, 0, b"if wD >= I goto J"),
    Row(0x4d, 0, 0, 0, b"if rD & rS goto J"),
    Row(0x45, 0, 0, 0, b"if rD & I goto J"),
    Row(0x4e, 0, 0, 0, b"if wD & wS goto J"),
    Row(0x46, 0, 0, 0, b"if wD & I goto J"),
    Row(0x5d, 0, 0, 0, b"if rD != rS goto J"),
    Row(0x55, 0, 0, 0, b"if rD != I goto J"),
    Row(0x5e, 0, 0, 0, b"if wD != wS goto J"),
    Row(0x56, 0, 0, 0, b"if wD != I goto J"),
    Row(0x6d, 0, 0, 0, b"if rD s> rS goto J"),
    Row(0x65, 0, 0, 0, b"if rD s> I goto J"),
    Row(0x6e, 0, 0, 0, b"if wD s> wS goto J"),
    Row(0x66, 0, 0, 0, b"if wD s> I goto J"),
    Row(0x7d, 0, 0, 0, b"if rD s>= rS goto J"),
    Row(0x75, 0, 0, 0, b"if rD s>= I goto J"),
    Row(0x7e, 0, 0, 0, b"if wD s>= wS goto J"),
    Row(0x76, 0, 0, 0, b"if wD s>= I goto J"),
    Row(0xad, 0, 0, 0, b"if rD < rS goto J"),
    Row(0xa5, 0, 0, 0, b"if rD < I goto J"),
    Row(0xae, 0, 0, 0, b"if wD < wS goto J"),
    Row(0xa6, 0, 0, 0, b"if wD < I goto J"),
    Row(0xbd, 0, 0, 0, b"if rD <= rS goto J"),
    Row(0xb5, 0, 0, 0, b"if rD <= I goto J"),
    Row(0xbe, 0, 0, 0, b"if wD <= wS goto J"),
    Row(0xb6, 0, 0, 0, b"if wD <= I goto J"),
    Row(0xcd, 0, 0, 0, b"if rD s< rS goto J"),
    Row(0xc5, 0, 0, 0, b"if rD s< I goto J"),
    Row(0xce, 0, 0, 0, b"if wD s< wS goto J"),
    Row(0xc6, 0, 0, 0, b"if wD s< I goto J"),
    Row(0xdd, 0, 0, 0, b"if rD s<= rS goto J"),
    Row(0xd5, 0, 0, 0, b"if rD s<= I goto J"),
    Row(0xde, 0, 0, 0, b"if wD s<= wS goto J"),
    Row(0xd6, 0, 0, 0, b"if wD s<= I goto J"),
];

static OTHER_ROWS: [Row; 18] = [
    Row(0x05, 0, 0, 0, b"goto J"),
    Row(0x06, 0, 0, 0, b"gotol C"),
    Row(0x0d, 0, 0, 0, b"gotox rD"),
    Row(0xe5, 0, 0, 0, b"may_goto J"),
    Row(0x85, 0, 0, 0, b"call I"),
    Row(0x85, 1, 0, 0, b"call pcC"),
    Row(0x85, 2, 0, 0, b"call btf#I"),
    Row(0x85, 2, 0, 0, b"call btf#I moduleJ"),
    Row(0x8d, 0, 0, 0, b"callx rD"),
    Row(0x95, 0, 0, 0, b"exit"),
    Row(0x18, 0, 0, 0, b"rD = W ll"),
    Row(0x18, 1, 0, 0, b"rD = map_fd#I ll"),
    Row(0x18, 2, 0, 0, b"rD = map_value_fd#IH ll"),
    Row(0x18, 3, 0, 0, b"rD = btf_id#I ll"),
    Row(0x18, 3, 0, 0, b"rD = btf_id#I moduleH ll"),
    Row(0x18, 4, 0, 0, b"rD = func pcC ll"),
    Row(0x18, 5, 0, 0, b"rD = map_index#I ll"),
    Row(0x18, 6, 0, 0, b"rD = map_value_index#IH ll"),
];

/// Arithmetic instructions.
#[tactic(auto, unfolding(crate::specs::Forms::arithmetic_forms))]
pub(crate) fn arithmetic_rows() -> &'static [Row]
    ensures { map form_of result.now ≡ arithmetic_forms }
{
    &ARITHMETIC_ROWS
}

/// Signed division and modulo, moves with sign extension, casts of addresses, negation and byte
/// swaps.
#[tactic(auto, unfolding(crate::specs::Forms::other_arithmetic_forms))]
pub(crate) fn other_arithmetic_rows() -> &'static [Row]
    ensures { map form_of result.now ≡ other_arithmetic_forms }
{
    &OTHER_ARITHMETIC_ROWS
}

/// Load and store instructions.
#[tactic(auto, unfolding(crate::specs::Forms::memory_forms))]
pub(crate) fn memory_rows() -> &'static [Row]
    ensures { map form_of result.now ≡ memory_forms }
{
    &MEMORY_ROWS
}

/// Atomic operations.
#[tactic(auto, unfolding(crate::specs::Forms::atomic_operation_forms))]
pub(crate) fn atomic_rows() -> &'static [Row]
    ensures { map form_of result.now ≡ atomic_operation_forms }
{
    &ATOMIC_ROWS
}

/// Conditional jumps.
#[tactic(auto, unfolding(crate::specs::Forms::jump_forms))]
pub(crate) fn jump_rows() -> &'static [Row]
    ensures { map form_of result.now ≡ jump_forms }
{
    &JUMP_ROWS
}

/// Other jumps, calls and 64-bit immediate instructions.
#[tactic(auto, unfolding(crate::specs::Forms::other_forms))]
pub(crate) fn other_rows() -> &'static [Row]
    ensures { map form_of result.now ≡ other_forms }
{
    &OTHER_ROWS
}
