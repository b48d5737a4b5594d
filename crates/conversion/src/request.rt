//! A picture that is asked for.
ghost use Rattle.std.specs.Prelude.{◌≡◌, ◌↔◌, Err, IfOk, IfErr, false, true};
ghost use Rattle.conversion.specs.PageJobs.{is_picture_possible};

use crate::fault::Fault;
use crate::naming::Naming;
use crate::possible::is_picture_possible;
use crate::setup::Setup;
use picture_job::Picture;

/// A picture that is asked for of a plot, which can have its resolution.
#[derive(Clone, Copy)]
pub struct Request<'a> {
    /// How the plot is read and drawn.
    pub setup: Setup<'a>,
    /// The picture.
    pub picture: &'a Picture,
    /// What a vector document says besides its strokes.
    pub naming: Naming<'a>,
    pub ghost possible: { is_picture_possible setup.choice picture.now ≡ true },
}

impl<'a> Request<'a> {
    /// A picture that is asked for so, if it can have its resolution. Nothing else judges that.
    ///
    /// Errors: only `Resolution`: if the form does not have the picture's resolution, if pixels are chosen in PCL, which has
    /// resolutions of its own, or if the finer picture of a smoothed one would have more than 1,200 dots per inch and no pixels
    /// are chosen.
    pub fn new(
        setup: Setup<'a>,
        picture: &'a Picture,
        naming: Naming<'a>,
    ) -> Result<Request<'a>, Fault>
        ensures resolution { (result ≡ Err Fault.Resolution) ↔ (is_picture_possible setup.entry.choice picture.entry.now ≡ false) }
        ensures only { IfErr result (λ fault. fault ≡ Fault.Resolution) }
        ensures setup { IfOk result (λ request. request.setup ≡ setup.entry) }
        ensures picture { IfOk result (λ request. request.picture ≡ picture.entry) }
        ensures naming { IfOk result (λ request. request.naming ≡ naming.entry) }
    {
        if !is_picture_possible(setup.choice, picture) {
            return Err(Fault::Resolution);
        }
        Ok(Request {
            setup,
            picture,
            naming,
        })
    }
}
