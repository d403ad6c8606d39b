// The files and the input that the programs read.
ghost use Rattle.std.specs.Prelude.{◌≡◌, ◌≢◌, IfOk, IfErr, IfSome, take};
ghost use Rattle.std.specs.IoError.{error_kind};

use std::alloc::Global;
use std::io::{ErrorKind, Read};
use std::{fs, io};

// Where the dictionary stands.
const DICTIONARY: &str = "dictionary.bin";

// The dictionary's bytes: none where there is no such file.
pub fn read_dictionary(rt: &HostRuntime) -> io::Result<Vec<u8>>
    ensures { IfErr result (λ e. error_kind e ≢ ErrorKind.NotFound) }
{
    match fs::read(rt, DICTIONARY) {
        Err(e) if e.kind() == ErrorKind::NotFound => Ok(Vec::new(rt.alloc())),
        read => read,
    }
}

// The first bytes of a reader, this many at most.
pub fn read_start<R: Read + Drop>(heap: Global, reader: R, most: usize) -> io::Result<Vec<u8>>
    ensures { IfOk result (λ v. IfSome (R.remaining reader) (λ xs. v.items ≡ take most xs)) }
{
    let mut bytes = Vec::new(heap);
    reader.take(most as u64).read_to_end(&mut bytes)?;
    Ok(bytes)
}

#[cfg(test)]
mod tests {
    use super::*;
    use std::test::Fail;

    #[test]
    fn the_first_bytes_are_read(rt: HostRuntime) -> Result<(), Fail> {
        let input: &[u8] = &[1, 2, 3];
        assert_eq!(rt;
            read_start(rt.alloc(), input, 2)?.as_slice(),
            [1, 2].as_slice()
        );
        assert_eq!(rt;
            read_start(rt.alloc(), input, 4)?.as_slice(),
            [1, 2, 3].as_slice()
        );
        Ok(())
    }

    #[test]
    fn without_a_file_the_dictionary_is_empty(rt: HostRuntime) -> Result<(), Fail> {
        assert_eq!(rt; read_dictionary(&rt)?.len(), 0);
        Ok(())
    }
}
