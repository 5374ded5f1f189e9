// A vault is handed out with its levels split, and comes back.
use crate::caller::work_split;
use crate::tests::vaults::{FEW, HIDDEN, lens, three_files};
use disk_model::Vault;
use std::test::Fail;

#[test]
fn a_vault_comes_back(rt: HostRuntime) -> Result<(), Fail> {
    let base = three_files(rt.alloc(), HIDDEN)?;
    if base.levels() != 3 {
        return Err(Fail::new(format_args!("not a base of three files")));
    }
    let parts = vec![in rt.alloc(); 3u32]?;
    let (mut base, done) = work_split(base, parts, FEW, 0, 7);
    assert_eq!(rt; done, Ok(()));
    assert_eq!(rt; lens(&mut base)?, [5, 2, 0]);
    Ok(())
}
