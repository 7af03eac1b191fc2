// What is read of a printed cube.
ghost use Rattle.std.specs.Prelude.{◌≡◌, List, Ok};
ghost use Rattle.fd_request.specs.{Expansion.{Keyword}, Limits.{request_of}};
ghost use Rattle.fd_cubes.specs.Cubes.{IsCube, cube_text};

/// The text of a cube is read as a request, and its keywords are the cube's.
pub fn every_cube_reads_back()
    ensures { (cube : List Keyword) → IsCube cube → request_of (cube_text cube) ≡ Ok cube }
{}
