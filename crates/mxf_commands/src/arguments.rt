//! The arguments that the program was started with.
use std::alloc::AllocError;
use std::env::FillError;
use std::rt::Env;
use std::str;

/// The number of the first argument that isn't UTF-8. The program's name is number 0.
pub fn unreadable_argument<R: Env + AllocGlobal>(rt: &R) -> Result<Option<usize>, AllocError> {
    let mut buffer = Vec::new(rt.alloc());
    buffer.resize(4096, 0u8)?;
    let mut number = 0usize;
    for _ in 0..usize::MAX {
        match rt.arg(number, buffer.as_mut_slice()) {
            Ok(length) if str::from_utf8(&buffer[..length]).is_ok() => {
                number = number.saturating_add(1);
            }
            Ok(_) => return Ok(Some(number)),
            Err(FillError::TooLong) => buffer.resize(buffer.len().saturating_mul(2), 0)?,
            Err(FillError::NotPresent) => return Ok(None),
        }
    }
    Ok(None)
}
