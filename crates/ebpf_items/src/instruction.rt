//! One slot of the eBPF instruction set.

ghost use Rattle.std.specs.Prelude.{◌≡◌, ◌<◌, ◌%◌, length};
ghost use Rattle.ebpf_items.specs.Instruction.{dst_reg_of, src_reg_of, with_dst_reg, with_src_reg, slot_of, bytes_of, is_pseudo_call, is_helper_call, older_helper, calls_newer_helper, with_older_helper};

// Numbers of helpers, from `enum bpf_func_id` of the kernel's `bpf.h`.
const BPF_FUNC_PROBE_READ: i32 = 4;

const BPF_FUNC_PROBE_READ_STR: i32 = 45;

const BPF_FUNC_PROBE_READ_USER: i32 = 112;

const BPF_FUNC_PROBE_READ_KERNEL: i32 = 113;

const BPF_FUNC_PROBE_READ_USER_STR: i32 = 114;

const BPF_FUNC_PROBE_READ_KERNEL_STR: i32 = 115;

/// An instruction slot: eight bytes, of which a wide instruction takes two slots ("Instruction
/// encoding" in the kernel's `instruction-set.rst`).
#[derive(Clone, Copy, Debug)]
pub struct bpf_insn {
    /// The operation code.
    pub code: u8,
    registers: u8,
    /// The signed offset.
    pub off: i16,
    /// The signed immediate.
    pub imm: i32,
}

impl bpf_insn {
    /// The slot that eight little-endian bytes encode.
    pub fn from_bytes(bytes: [u8; 8]) -> bpf_insn
        ensures value { result ≡ slot_of bytes }
        ensures again { bytes_of result ≡ bytes }
    {
        bpf_insn::read(&bytes)
    }

    /// The slot that eight bytes of a slice encode.
    pub(crate) fn read(bytes: &[u8]) -> bpf_insn
        requires { length bytes.now ≡ 8 }
        ensures value { result ≡ slot_of bytes.now }
        ensures again { bytes_of result ≡ bytes.now }
    {
        bpf_insn {
            code: bytes[0],
            registers: bytes[1],
            off: i16::from_le_bytes([bytes[2], bytes[3]]),
            imm: i32::from_le_bytes([bytes[4], bytes[5], bytes[6], bytes[7]]),
        }
    }

    /// The eight bytes that encode the slot, little-endian.
    pub fn to_bytes(self) -> [u8; 8]
        ensures value { result ≡ bytes_of self }
        ensures again { slot_of result ≡ self }
    {
        let off = self.off.to_le_bytes();
        let imm = self.imm.to_le_bytes();
        [
            self.code,
            self.registers,
            off[0],
            off[1],
            imm[0],
            imm[1],
            imm[2],
            imm[3],
        ]
    }

    /// The number of the destination register, 0 to 15.
    pub fn dst_reg(self) -> u8
        ensures value { result ≡ dst_reg_of self }
        ensures small { result < 16 }
    {
        self.registers % 16
    }

    /// The number of the source register, 0 to 15.
    pub fn src_reg(self) -> u8
        ensures value { result ≡ src_reg_of self }
        ensures small { result < 16 }
    {
        self.registers / 16
    }

    /// Sets the number of the destination register: the low four bits of `reg`.
    pub fn set_dst_reg(&mut self, reg: u8)
        ensures value { self.new ≡ with_dst_reg self.old reg }
        ensures dst { dst_reg_of self.new ≡ reg % 16 }
        ensures src { src_reg_of self.new ≡ src_reg_of self.old }
    {
        self.registers = self.src_reg() * 16 + reg % 16;
    }

    /// Sets the number of the source register: the low four bits of `reg`.
    pub fn set_src_reg(&mut self, reg: u8)
        ensures value { self.new ≡ with_src_reg self.old reg }
        ensures src { src_reg_of self.new ≡ reg % 16 }
        ensures dst { dst_reg_of self.new ≡ dst_reg_of self.old }
    {
        self.registers = reg % 16 * 16 + self.dst_reg();
    }

    /// Whether the slot calls a function of the program: `BPF_JMP | BPF_CALL` with the source
    /// register `BPF_PSEUDO_CALL`, the destination register 0 and the offset 0.
    pub fn is_pseudo_call(self) -> bool
        ensures { result ≡ is_pseudo_call self }
    {
        self.code == 0x85 && self.src_reg() == 1 && self.dst_reg() == 0 && self.off == 0
    }

    /// Whether the slot calls a helper: `BPF_JMP | BPF_CALL` with the source and destination
    /// registers 0.
    fn is_helper_call(self) -> bool
        ensures { result ≡ is_helper_call self }
    {
        self.code == 0x85 && self.src_reg() == 0 && self.dst_reg() == 0
    }

    /// Whether the slot calls a helper that kernels before 5.5 lack and that an older helper can
    /// replace.
    pub fn calls_newer_helper(self) -> bool
        ensures { result ≡ calls_newer_helper self }
    {
        self.is_helper_call() && older_helper(self.imm).is_some()
    }

    /// The slot; if it calls a helper that an older one can replace, with the older helper.
    pub fn with_older_helper(self) -> bpf_insn
        ensures { result ≡ with_older_helper self }
    {
        let mut slot = self;
        if self.is_helper_call() {
            slot.imm = older_helper(self.imm).unwrap_or(self.imm);
        }
        slot
    }
}

/// The older helper that replaces a newer one, if there is one.
fn older_helper(helper: i32) -> Option<i32>
    ensures { result ≡ older_helper helper }
{
    match helper {
        BPF_FUNC_PROBE_READ_USER | BPF_FUNC_PROBE_READ_KERNEL => Some(BPF_FUNC_PROBE_READ),
        BPF_FUNC_PROBE_READ_USER_STR | BPF_FUNC_PROBE_READ_KERNEL_STR => {
            Some(BPF_FUNC_PROBE_READ_STR)
        }
        _ => None,
    }
}
