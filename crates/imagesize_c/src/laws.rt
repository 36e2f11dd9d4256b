//! A law of the numbers: the contract states it, and the function's body is empty.
ghost use Rattle.std.specs.Prelude.{◌≡◌, Some};
ghost use Rattle.imagesize.specs.declared.types.ImageType.{ImageType};
ghost use Rattle.imagesize_c.specs.Numbers.{compression_number, type_number, type_numbered};

// Each type has its own numbers, which lead back to it.
fn numbers_laws()
    ensures { (image : ImageType) → type_numbered (type_number image) (compression_number image) ≡ Some image }
{}
