// The names of features, profiles and values, in words: one table of each, a line for each number, in hexadecimal. Beside them the fields of the bodies, and the forms in which
// words and JSON are said.

use super::tables;
use program_io::streams::say;

// Says what a table has for a number, or what is said where it has nothing.
fn say_named(host: HostRuntime, table: &[u8], number: u32, otherwise: &[u8]) {
    let name = tables::text_of(table, true, number);
    if name.len() == 0 {
        say(host, otherwise);
        return;
    }
    say(host, name);
}

// Features, as Table 6 of document 000 and document 002 name them, and those that the published MMC has added.
pub fn say_feature(host: HostRuntime, number: u16) {
    if number >= 0xFF00 {
        say(host, b"Vendor Unique");
        return;
    }
    say_named(
        host,
        b"0000 Profile List\n\
        0001 Core\n\
        0002 Morphing\n\
        0003 Removable Medium\n\
        0004 Write Protect\n\
        0010 Random Readable\n\
        001D MultiRead\n\
        001E CD Read\n\
        001F DVD Read\n\
        0020 Random Writable\n\
        0021 Incremental Streaming Writable\n\
        0022 Sector Erasable\n\
        0023 Formattable\n\
        0024 Defect Management\n\
        0025 Write Once\n\
        0026 Restricted Overwrite\n\
        0027 CD-RW CAV Write\n\
        0028 MRW\n\
        0029 Enhanced Defect Reporting\n\
        002A DVD+RW\n\
        002B DVD+R\n\
        002C Rigid Restricted Overwrite\n\
        002D CD Track at Once\n\
        002E CD Mastering\n\
        002F DVD-R Write\n\
        0030 Double Density CD Read\n\
        0031 Double Density CD-R Write\n\
        0032 Double Density CD-RW Write\n\
        0033 Layer Jump Recording\n\
        0034 Layer Jump Rigid Restricted Overwrite\n\
        0035 Stop Long Operation\n\
        0037 CD-RW Media Write Support\n\
        0038 BD-R Pseudo-Overwrite\n\
        003A DVD+RW Dual Layer\n\
        003B DVD+R Dual Layer\n\
        0040 BD Read\n\
        0041 BD Write\n\
        0042 Timely Safe Recording\n\
        0050 HD DVD Read\n\
        0051 HD DVD Write\n\
        0052 HD DVD-RW Fragment Recording\n\
        0080 Hybrid Disc\n\
        0100 Power Management\n\
        0101 S.M.A.R.T.\n\
        0102 Embedded Changer\n\
        0103 CD Audio analog play\n\
        0104 Microcode Upgrade\n\
        0105 Time-out\n\
        0106 DVD-CSS\n\
        0107 Real Time Streaming\n\
        0108 Logical Unit serial number\n\
        0109 Media Serial Number\n\
        010A Disc Control Blocks\n\
        010B DVD CPRM\n\
        010C Firmware Information\n\
        010D AACS\n\
        010E DVD CSS Managed Recording\n\
        0110 VCPS\n\
        0113 SecurDisc\n\
        0120 BD CPS\n\
        0142 OSSC",
        number as u32,
        b"no name",
    );
}

// Profiles: those of document 000, Table 9, and those that the published MMC has added.
pub fn say_profile(host: HostRuntime, number: u16) {
    say_named(
        host,
        b"0000 none\n\
        0001 Non-removable disk\n\
        0002 Removable disk\n\
        0003 MO Erasable\n\
        0004 MO Write Once\n\
        0005 AS-MO\n\
        0008 CD-ROM\n\
        0009 CD-R\n\
        000A CD-RW\n\
        0010 DVD-ROM\n\
        0011 DVD-R\n\
        0012 DVD-RAM\n\
        0013 DVD-RW Restricted Overwrite\n\
        0014 DVD-RW Sequential Recording\n\
        0015 DVD-R Dual Layer Sequential Recording\n\
        0016 DVD-R Dual Layer Jump Recording\n\
        0017 DVD-RW Dual Layer\n\
        0018 DVD-Download\n\
        001A DVD+RW\n\
        001B DVD+R\n\
        0020 DDCD-ROM\n\
        0021 DDCD-R\n\
        0022 DDCD-RW\n\
        002A DVD+RW Dual Layer\n\
        002B DVD+R Dual Layer\n\
        0040 BD-ROM\n\
        0041 BD-R SRM\n\
        0042 BD-R RRM\n\
        0043 BD-RE\n\
        0050 HD DVD-ROM\n\
        0051 HD DVD-R\n\
        0052 HD DVD-RAM\n\
        0053 HD DVD-RW\n\
        0058 HD DVD-R Dual Layer\n\
        005A HD DVD-RW Dual Layer\n\
        FFFF Logical Units Not Conforming to a Standard Profile",
        number as u32,
        b"no name",
    );
}

// Physical Interface Standard: document 000, Table 11, and the published MMC's from 4 on.
pub fn say_physical(host: HostRuntime, value: u32) {
    say_named(
        host,
        b"0 Unspecified\n\
        1 SCSI Family\n\
        2 ATAPI\n\
        3 IEEE 1394-1995\n\
        4 IEEE 1394A\n\
        5 Fibre Channel\n\
        6 IEEE 1394B\n\
        7 Serial ATAPI\n\
        8 USB\n\
        FFFF Vendor Unique",
        value,
        b"no name",
    );
}

// Loading Mechanism: document 000, Table 15.
pub fn say_loading(host: HostRuntime, value: u32) {
    say_named(
        host,
        b"0 Caddy/Slot\n\
        1 Tray\n\
        2 Pop-up\n\
        4 Embedded changer with individually changeable discs\n\
        5 Embedded changer using a cartridge mechanism",
        value,
        b"Reserved",
    );
}
