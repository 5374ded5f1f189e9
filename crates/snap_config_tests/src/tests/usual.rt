// A usual configuration.

pub const USUAL: &str =
    "# four disks, two parities\nparity /mnt/parity1/snapraid.parity\n2-parity /mnt/parity2/snapraid.2-parity\ncontent /var/snapraid/snapraid.content\ncontent /mnt/disk1/snapraid.content\ncontent /mnt/disk2/snapraid.content\ndata d1 /mnt/disk1/\ndata d2 /mnt/disk2/\ndata d3 /mnt/disk3/\ndata d4 /mnt/disk4/\nexclude *.tmp\nexclude /lost+found/\nautosave 500\npool /pool\nblocksize 256\n";
