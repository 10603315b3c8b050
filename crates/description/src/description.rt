// What a description says.
use command::FieldName;

// The plan of an archive: which checks it has.
#[derive(Debug, Drop, PartialEq, Eq)]
pub enum PlanName {
    // The plan of powers.
    Powers,
    // The plan of groups.
    Groups,
    // A written plan: the codes of each check, one for each data bay.
    Written(Vec<Vec<u32>>),
}

// What stands below an archive, as the paths of it.
#[derive(Debug, Drop, PartialEq, Eq)]
pub enum Below {
    // An image on disk for each bay: for the data bays first, and then for the check bays.
    Disks(Vec<Vec<u8>>),
    // The descriptions of other archives, whose bays are those of this one.
    Archives(Vec<Vec<u8>>),
}

// An archive on disk: the field of its words, its plan, how many bays hold data, how many hold checks, how many places each bay has, and
// what stands below it.
#[derive(Debug, Drop, PartialEq, Eq)]
pub struct Description {
    pub field: FieldName,
    pub plan: PlanName,
    pub data_bays: u32,
    pub check_bays: u32,
    pub places: u32,
    pub below: Below,
}
