//! What holds of this release.
ghost use Rattle.sw_args.specs.Release.{TellsTheLogic};

/// A proved program tells the logic by which it was proved.
pub fn logic_is_told()
    ensures { TellsTheLogic }
{}
