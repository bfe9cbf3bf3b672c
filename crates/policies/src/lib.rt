// Waiting policies: which job may wait for which holder of a lock.
#![tactic(auto)]

pub mod age;
pub mod class_then_age;
pub mod never;
pub mod wait_policy;

#[cfg(test)]
mod tests {
    use crate::age::Age;
    use crate::class_then_age::ClassThenAge;
    use crate::never::Never;
    use crate::wait_policy::{Standing, WaitPolicy};

    fn job(class: u8, number: u32) -> Standing {
        Standing { class, number }
    }

    #[test]
    fn age(rt: HostRuntime) {
        assert!(rt; Age.may_wait(job(7, 3), job(0, 5)));
        assert!(rt; !Age.may_wait(job(0, 5), job(7, 3)));
        assert!(rt; !Age.may_wait(job(0, 3), job(7, 3)));
    }

    #[test]
    fn class_then_age(rt: HostRuntime) {
        assert!(rt; ClassThenAge.may_wait(job(1, 5), job(2, 3)));
        assert!(rt; !ClassThenAge.may_wait(job(2, 3), job(1, 5)));
        assert!(rt; ClassThenAge.may_wait(job(2, 3), job(2, 5)));
        assert!(rt; !ClassThenAge.may_wait(job(2, 5), job(2, 3)));
    }

    #[test]
    fn never(rt: HostRuntime) {
        assert!(rt; !Never.may_wait(job(0, 3), job(7, 5)));
    }
}
