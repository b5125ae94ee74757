//! RISC-V instructions as GNU objdump prints them.
use crate::riscv::RiscvAt;
use rv_isa::word::decode;
use std::test::Fail;

/// Addresses, words and their text, as GNU objdump 2.40 prints it.
static ROWS: [(u32, u32, &str); 47] = [
    (0x00400000, 0x12345137, "lui\tx2,0x12345"),
    (0x00400004, 0xfffff117, "auipc\tx2,0xfffff"),
    (0x00400008, 0xffdff06f, "jal\tx0,0x400004"),
    (0x0040000c, 0x0080006f, "jal\tx0,0x400014"),
    (0x00400010, 0xff8100e7, "jalr\tx1,-8(x2)"),
    (0x00400014, 0xfe0018e3, "bne\tx0,x0,0x400004"),
    (0x00400018, 0x00208463, "beq\tx1,x2,0x400020"),
    (0x0040001c, 0x0020c463, "blt\tx1,x2,0x400024"),
    (0x00400020, 0x0020d463, "bge\tx1,x2,0x400028"),
    (0x00400024, 0x0020e463, "bltu\tx1,x2,0x40002c"),
    (0x00400028, 0x7e20ffe3, "bgeu\tx1,x2,0x401026"),
    (0x0040002c, 0xffc10083, "lb\tx1,-4(x2)"),
    (0x00400030, 0x00211083, "lh\tx1,2(x2)"),
    (0x00400034, 0x00c2a303, "lw\tx6,12(x5)"),
    (0x00400038, 0x00014083, "lbu\tx1,0(x2)"),
    (0x0040003c, 0x00215083, "lhu\tx1,2(x2)"),
    (0x00400040, 0xfe208fa3, "sb\tx2,-1(x1)"),
    (0x00400044, 0x00111123, "sh\tx1,2(x2)"),
    (0x00400048, 0x0062a623, "sw\tx6,12(x5)"),
    (0x0040004c, 0x80010093, "addi\tx1,x2,-2048"),
    (0x00400050, 0xfff5a513, "slti\tx10,x11,-1"),
    (0x00400054, 0xfff5b513, "sltiu\tx10,x11,-1"),
    (0x00400058, 0xfff5c513, "xori\tx10,x11,-1"),
    (0x0040005c, 0x7ff5e513, "ori\tx10,x11,2047"),
    (0x00400060, 0xfff5f513, "andi\tx10,x11,-1"),
    (0x00400064, 0x01f11093, "slli\tx1,x2,0x1f"),
    (0x00400068, 0x01f15093, "srli\tx1,x2,0x1f"),
    (0x0040006c, 0x40545413, "srai\tx8,x8,0x5"),
    (0x00400070, 0x003100b3, "add\tx1,x2,x3"),
    (0x00400074, 0x403100b3, "sub\tx1,x2,x3"),
    (0x00400078, 0x003110b3, "sll\tx1,x2,x3"),
    (0x0040007c, 0x003120b3, "slt\tx1,x2,x3"),
    (0x00400080, 0x003130b3, "sltu\tx1,x2,x3"),
    (0x00400084, 0x003140b3, "xor\tx1,x2,x3"),
    (0x00400088, 0x003150b3, "srl\tx1,x2,x3"),
    (0x0040008c, 0x403150b3, "sra\tx1,x2,x3"),
    (0x00400090, 0x003160b3, "or\tx1,x2,x3"),
    (0x00400094, 0x003170b3, "and\tx1,x2,x3"),
    (0x00400098, 0x023100b3, "mul\tx1,x2,x3"),
    (0x0040009c, 0x023110b3, "mulh\tx1,x2,x3"),
    (0x004000a0, 0x023120b3, "mulhsu\tx1,x2,x3"),
    (0x004000a4, 0x023130b3, "mulhu\tx1,x2,x3"),
    (0x004000a8, 0x023140b3, "div\tx1,x2,x3"),
    (0x004000ac, 0x023150b3, "divu\tx1,x2,x3"),
    (0x004000b0, 0x023160b3, "rem\tx1,x2,x3"),
    (0x004000b4, 0x023170b3, "remu\tx1,x2,x3"),
    (0x004000b8, 0x00000073, "ecall"),
];

#[test]
fn prints_what_objdump_prints(rt: HostRuntime) -> Result<(), Fail> {
    for (address, word, text) in &ROWS {
        let instr = decode(*word).ok_or("an instruction")?;
        let address = *address;
        let printed = format!(in rt.alloc(); "{}", RiscvAt { address, instr })?;
        assert_eq!(rt; printed.as_str(), *text);
    }
    Ok(())
}
