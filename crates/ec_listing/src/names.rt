//! The names of operations and classes.
use ec_core::{Kind, Operation};
use ec_meaning::source::Program;
use ec_world::class::{ClassNo, NameNo};
use std::alloc::{AllocError, Global};

/// Writes a name, a letter for each byte.
pub fn put_name(name: &[u8], out: &mut String) -> Result<(), AllocError> {
    for byte in name {
        out.push(char::from(*byte))?;
    }
    Ok(())
}

/// Writes the name of a class.
pub fn put_class(
    alloc: Global,
    program: &Program<'_>,
    class: ClassNo,
    out: &mut String,
) -> Result<(), AllocError> {
    let mut name = Vec::new(alloc);
    program.push_class_name(class, &mut name)?;
    put_name(&name, out)
}

/// The operation of a number other than 0, which is the program's own.
pub fn operation_of<'a>(program: &Program<'a>, number: usize) -> Option<&'a Operation> {
    let place = number.checked_sub(1)?;
    program.core().operations.as_slice().get(place)
}

/// Writes `main.sum`, `main.initially` or `main.process`; `program` for the program's own operation.
pub fn put_operation(
    program: &Program<'_>,
    number: usize,
    out: &mut String,
) -> Result<(), AllocError> {
    let Some(operation) = operation_of(program, number) else {
        return out.push_str("program");
    };
    if let Some(class) = program.table().name(operation.class) {
        put_name(class, out)?;
    }
    match operation.kind {
        Kind::Named => {
            out.push('.')?;
            put_name(operation.name.as_slice(), out)
        }
        Kind::Initial => out.push_str(".initially"),
        Kind::Process => out.push_str(".process"),
    }
}

/// Writes the name of operations that has a number: that of the operation behind so many others that have names.
pub fn put_invoked(
    program: &Program<'_>,
    name: NameNo,
    out: &mut String,
) -> Result<(), AllocError> {
    let mut left = name;
    for operation in program.core().operations.as_slice() {
        if operation.kind == Kind::Named {
            if left == 0 {
                return put_name(operation.name.as_slice(), out);
            }
            left -= 1;
        }
    }
    Ok(())
}
