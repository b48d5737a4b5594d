use output_files::{Claim, Claims, FileId, greater_status};
use std::test::Fail;

fn file(device: u64, number: u64) -> Option<FileId> {
    Some(FileId { device, number })
}

#[test]
fn paths_are_claimed_once(rt: HostRuntime) -> Result<(), Fail> {
    let mut claims = Claims::new(rt.alloc());
    assert_eq!(rt; claims.claim("a", None)?, Claim::Free);
    assert_eq!(rt; claims.claim("a", None)?, Claim::Taken);
    assert_eq!(rt; claims.claim("a.png", file(1, 7))?, Claim::Free);
    assert_eq!(rt; claims.claim("", None)?, Claim::Free);
    Ok(())
}

#[test]
fn plots_are_not_written(rt: HostRuntime) -> Result<(), Fail> {
    let mut claims = Claims::new(rt.alloc());
    claims.add_plot(FileId {
        device: 1,
        number: 7,
    })?;
    claims.add_plot(FileId {
        device: 3,
        number: 9,
    })?;
    assert_eq!(rt; claims.claim("a", file(1, 7))?, Claim::Plot);
    assert_eq!(rt; claims.claim("a", None)?, Claim::Taken);
    assert_eq!(rt; claims.claim("a", file(1, 7))?, Claim::Taken);
    assert_eq!(rt; claims.claim("b", file(2, 7))?, Claim::Free);
    assert_eq!(rt; claims.claim("c", file(1, 9))?, Claim::Free);
    assert!(rt; claims.is_plot(file(3, 9)));
    assert!(rt; !claims.is_plot(file(3, 7)));
    assert!(rt; !claims.is_plot(None));
    Ok(())
}

#[test]
fn statuses(rt: HostRuntime) -> Result<(), Fail> {
    assert_eq!(rt; greater_status(0, 3), 3);
    assert_eq!(rt; greater_status(3, 1), 3);
    assert_eq!(rt; greater_status(3, 0), 3);
    Ok(())
}
