// What holds of layers, and of the tables that answer one over the other.
ghost use Rattle.fd_layers.specs.{Based.{GivenAreValues}, Tables.{NearestFirst}};

/// The law that the pairs which are read of a text are values, as those of a layer are to be.
pub fn values_of_given()
    ensures { GivenAreValues }
{}

/// The law that of tables which answer one over the other the nearest that has a key answers.
pub fn nearest_first()
    ensures { NearestFirst }
{}
