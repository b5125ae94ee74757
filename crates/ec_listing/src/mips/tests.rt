//! MIPS instructions as GNU objdump prints them.
use crate::mips::MipsAt;
use mips_isa::word::decode;
use std::test::Fail;

/// Addresses, words and their text, as GNU objdump 2.40 prints it.
static ROWS: [(u32, u32, &str); 52] = [
    (0x00400000, 0x00022080, "sll\t$4,$2,0x2"),
    (0x00400004, 0x00022082, "srl\t$4,$2,0x2"),
    (0x00400008, 0x00022fc3, "sra\t$5,$2,0x1f"),
    (0x0040000c, 0x00a22004, "sllv\t$4,$2,$5"),
    (0x00400010, 0x00a22006, "srlv\t$4,$2,$5"),
    (0x00400014, 0x00a22007, "srav\t$4,$2,$5"),
    (0x00400018, 0x00851020, "add\t$2,$4,$5"),
    (0x0040001c, 0x00851021, "addu\t$2,$4,$5"),
    (0x00400020, 0x00851022, "sub\t$2,$4,$5"),
    (0x00400024, 0x00851023, "subu\t$2,$4,$5"),
    (0x00400028, 0x00851024, "and\t$2,$4,$5"),
    (0x0040002c, 0x00851025, "or\t$2,$4,$5"),
    (0x00400030, 0x00851026, "xor\t$2,$4,$5"),
    (0x00400034, 0x00851027, "nor\t$2,$4,$5"),
    (0x00400038, 0x0085102a, "slt\t$2,$4,$5"),
    (0x0040003c, 0x0085102b, "sltu\t$2,$4,$5"),
    (0x00400040, 0x00850018, "mult\t$4,$5"),
    (0x00400044, 0x00850019, "multu\t$4,$5"),
    (0x00400048, 0x0085001a, "div\t$0,$4,$5"),
    (0x0040004c, 0x0085001b, "divu\t$0,$4,$5"),
    (0x00400050, 0x00001010, "mfhi\t$2"),
    (0x00400054, 0x00001012, "mflo\t$2"),
    (0x00400058, 0x00400011, "mthi\t$2"),
    (0x0040005c, 0x00400013, "mtlo\t$2"),
    (0x00400060, 0x03e00008, "jr\t$31"),
    (0x00400064, 0x0040f809, "jalr\t$2"),
    (0x00400068, 0x00401809, "jalr\t$3,$2"),
    (0x0040006c, 0x0000000c, "syscall"),
    (0x00400070, 0x08100004, "j\t0x400010"),
    (0x00400074, 0x0fffffff, "jal\t0xffffffc"),
    (0x00400078, 0x1043fffb, "beq\t$2,$3,0x400068"),
    (0x0040007c, 0x14408000, "bne\t$2,$0,0x3e0080"),
    (0x00400080, 0x04410003, "bgez\t$2,0x400090"),
    (0x00400084, 0x04407fff, "bltz\t$2,0x420084"),
    (0x00400088, 0x18400003, "blez\t$2,0x400098"),
    (0x0040008c, 0x1c400003, "bgtz\t$2,0x40009c"),
    (0x00400090, 0x20a28000, "addi\t$2,$5,-32768"),
    (0x00400094, 0x24a2ffff, "addiu\t$2,$5,-1"),
    (0x00400098, 0x28a27fff, "slti\t$2,$5,32767"),
    (0x0040009c, 0x2ca2ffff, "sltiu\t$2,$5,-1"),
    (0x004000a0, 0x30a2ffff, "andi\t$2,$5,0xffff"),
    (0x004000a4, 0x34a28000, "ori\t$2,$5,0x8000"),
    (0x004000a8, 0x38a20001, "xori\t$2,$5,0x1"),
    (0x004000ac, 0x3c021234, "lui\t$2,0x1234"),
    (0x004000b0, 0x83a4ffff, "lb\t$4,-1($29)"),
    (0x004000b4, 0x87a40002, "lh\t$4,2($29)"),
    (0x004000b8, 0x8fa40010, "lw\t$4,16($29)"),
    (0x004000bc, 0x93a40000, "lbu\t$4,0($29)"),
    (0x004000c0, 0x97a48000, "lhu\t$4,-32768($29)"),
    (0x004000c4, 0xa3a40001, "sb\t$4,1($29)"),
    (0x004000c8, 0xa7a40002, "sh\t$4,2($29)"),
    (0x004000cc, 0xafa4fffc, "sw\t$4,-4($29)"),
];

#[test]
fn prints_what_objdump_prints(rt: HostRuntime) -> Result<(), Fail> {
    for (address, word, text) in &ROWS {
        let instr = decode(*word).ok_or("an instruction")?;
        let address = *address;
        let printed = format!(in rt.alloc(); "{}", MipsAt { address, instr })?;
        assert_eq!(rt; printed.as_str(), *text);
    }
    Ok(())
}
