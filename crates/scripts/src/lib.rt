// The script format: reading its sections from bytes.
#![tactic(auto)]

mod cursor;
pub mod fault;
mod item;
mod items;
mod parts;
pub mod read;
pub mod read_error;
pub mod sections;

#[cfg(test)]
mod tests {
    use crate::read::read_sections;
    use crate::read_error::ReadError;
    use predicates::predicate::Predicate;
    use std::alloc::Global;
    use std::process::Abort;
    use std::test::Fail;

    // The fault of a text, as it is printed.
    fn says(rt: &impl Abort, heap: Global, text: &[u8], said: &str) -> Result<(), Fail> {
        let Err(ReadError::Fault(fault)) = read_sections(heap, text) else {
            return Err(Fail::new("no fault"));
        };
        assert_eq!(rt; format!(in heap; "{fault}")?.as_str(), said);
        Ok(())
    }

    #[test]
    fn faults_of_form(rt: HostRuntime) -> Result<(), Fail> {
        let heap = rt.alloc();
        says(&rt, heap, b"", "fault 1 1")?;
        says(&rt, heap, b"0", "fault 1 1")?;
        says(&rt, heap, b"0\n", "fault 2 1")?;
        says(&rt, heap, b"00\n0\n", "fault 1 1")?;
        says(&rt, heap, b"1\n7 100  3600 0 5000\n0\n", "fault 2 1")?;
        says(&rt, heap, b"1\n7 100 3600 0 5000 \n0\n", "fault 2 1")?;
        says(&rt, heap, b"1\n7 100 3600 0\n0\n", "fault 2 1")?;
        says(&rt, heap, b"0\n0\n\n", "fault 3 1")
    }

    #[test]
    fn faults_of_number_row_and_predicate(rt: HostRuntime) -> Result<(), Fail> {
        let heap = rt.alloc();
        says(&rt, heap, b"513\n", "fault 1 2")?;
        says(&rt, heap, b"0\n65\n", "fault 2 2")?;
        says(&rt, heap, b"1\n7 100 3600 4294967296 5000\n", "fault 2 2")?;
        says(&rt, heap, b"1\n0 100 3600 0 5000\n0\n", "fault 2 3")?;
        says(&rt, heap, b"1\n7 100 3600 0 2000001", "fault 2 3")?;
        says(&rt, heap, b"0\n1\n5 4 0 0 0 0 0 0\n", "fault 3 4")?;
        says(&rt, heap, b"0\n1\n1 9999 0 36525 0 0 0 0\n", "fault 3 4")
    }

    #[test]
    fn longest_text(rt: HostRuntime) -> Result<(), Fail> {
        let heap = rt.alloc();
        let most = vec![in heap; b' '; 65_536]?;
        says(&rt, heap, most.as_slice(), "fault 1 1")?;
        let more = vec![in heap; b' '; 65_537]?;
        says(&rt, heap, more.as_slice(), "fault 1 5")
    }

    #[test]
    fn a_small_script(rt: HostRuntime) -> Result<(), Fail> {
        let text = b"1\n7 100 3600 0 5000\n1\n1 9999 100 100 0 86399 0 2000000\n";
        let sections = read_sections(rt.alloc(), text)?;
        assert_eq!(rt; sections.trips.len(), 1);
        assert_eq!(rt; sections.boxes.len(), 1);
        assert_eq!(rt; sections.trips[0].metres(), 5_000);
        assert!(rt; sections.boxes[0].holds(&sections.trips[0]));
        Ok(())
    }
}
