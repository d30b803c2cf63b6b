//! Laws of what is near and far.
ghost use Rattle.fb_library.specs.Local.{CarriedIsAll, CarriedIsLocal, FarIsLocal, FarIsOneList, NearIsAll, NearIsLocal};

/// The list of what units carry has all of that and nothing else.
pub fn carried_is_all()
    ensures { CarriedIsAll }
{}

/// What units carry depends only on the texts of these and of what they carry.
pub fn carried_is_local()
    ensures { CarriedIsLocal }
{}

/// The list of what is near a unit has all of that and nothing else.
pub fn near_is_all()
    ensures { NearIsAll }
{}

/// The names near a unit depend only on the texts under these names.
pub fn near_is_local()
    ensures { NearIsLocal }
{}

/// What a unit rests on depends only on the texts that it rests on.
pub fn far_is_local()
    ensures { FarIsLocal }
{}

/// Only one list has the properties that `far` ensures of its names.
pub fn far_is_one_list()
    ensures { FarIsOneList }
{}
