// Which status a refusal of a layer below comes to.
ghost use Rattle.std.specs.Prelude.{◌≡◌};
ghost use Rattle.montage_tool.specs.StatusCauses.{of_image, of_job, of_opening, of_reading, of_replay, of_report, of_resume, of_schedule, of_words};
ghost use Rattle.montage_tool.specs.declared.status.Status.TheVariants as statuses;

use crate::status::{SourceName, Status};
use image_units::{ImageFault, RecoverRefusal};
use job_store::ResumeRefusal;
use job_text::{JobRefusal, ReportRefusal};
use mont_image::ImageRefusal;
use montage::OpenRefusal;
use replay::{ReplayRefusal, ScheduleRefusal};
use source_bytes::ReadRefusal;
use std::alloc::AllocError;

impl From<AllocError> for Status {
    ghost from_gives = { λ _ status. status ≡ statuses.Memory };

    fn from(_error: AllocError) -> Status {
        Status::Memory
    }
}

// Where no job was read.
impl From<JobRefusal> for Status {
    ghost from_gives = { λ refusal status. status ≡ of_job refusal };

    fn from(refusal: JobRefusal) -> Status {
        match refusal {
            JobRefusal::Text { line, fault } => Status::BadJob { line, fault },
            JobRefusal::Read => Status::ReadFault {
                which: SourceName::Job,
            },
            JobRefusal::Memory => Status::Memory,
        }
    }
}

// Where no store was opened, or memory ran out later.
impl From<OpenRefusal> for Status {
    ghost from_gives = { λ refusal status. status ≡ of_opening refusal };

    fn from(refusal: OpenRefusal) -> Status {
        match refusal {
            OpenRefusal::Index { unit, len } => Status::BadIndex { unit, len },
            OpenRefusal::Memory => Status::Memory,
        }
    }
}

// Where no image was read.
impl From<ImageRefusal> for Status {
    ghost from_gives = { λ refusal status. status ≡ of_image refusal };

    fn from(refusal: ImageRefusal) -> Status {
        match ImageFault::of_bytes(refusal) {
            Some(fault) => Status::BadImage { fault },
            None if refusal == ImageRefusal::Read => Status::ReadFault {
                which: SourceName::Image,
            },
            None => Status::Memory,
        }
    }
}

// Where recovery refused an image.
impl From<RecoverRefusal> for Status {
    ghost from_gives = { λ refusal status. status ≡ of_words refusal };

    fn from(refusal: RecoverRefusal) -> Status {
        match ImageFault::of_words(refusal) {
            Some(fault) => Status::BadImage { fault },
            None => Status::Memory,
        }
    }
}

// Where no job was run on an image.
impl From<ResumeRefusal> for Status {
    ghost from_gives = { λ refusal status. status ≡ of_resume refusal };

    fn from(refusal: ResumeRefusal) -> Status {
        match refusal {
            ResumeRefusal::Image { why } => Status::from(why),
            ResumeRefusal::OtherLayout { layout } => Status::OtherLayout {
                kinds: layout.kinds(),
                slots: layout.slots(),
            },
            ResumeRefusal::Index { unit, len } => Status::BadIndex { unit, len },
            ResumeRefusal::Memory => Status::Memory,
        }
    }
}

// Where the bytes of a report weren't read.
impl From<ReadRefusal> for Status {
    ghost from_gives = { λ refusal status. status ≡ of_reading refusal };

    fn from(refusal: ReadRefusal) -> Status {
        match refusal {
            ReadRefusal::Read => Status::ReadFault {
                which: SourceName::Job,
            },
            ReadRefusal::Memory => Status::Memory,
        }
    }
}

// Where no report was read.
impl From<ReportRefusal> for Status {
    ghost from_gives = { λ refusal status. status ≡ of_report refusal };

    fn from(refusal: ReportRefusal) -> Status {
        match refusal {
            ReportRefusal::Text { line } => Status::BadReport { line },
            ReportRefusal::Memory => Status::Memory,
        }
    }
}

// Where no schedule was read.
impl From<ScheduleRefusal> for Status {
    ghost from_gives = { λ refusal status. status ≡ of_schedule refusal };

    fn from(refusal: ScheduleRefusal) -> Status {
        match refusal {
            ScheduleRefusal::Text { line } => Status::BadSchedule { line },
            ScheduleRefusal::Read => Status::ReadFault {
                which: SourceName::Job,
            },
            ScheduleRefusal::Memory => Status::Memory,
        }
    }
}

// Where a schedule wasn't replayed to its end.
impl From<ReplayRefusal> for Status {
    ghost from_gives = { λ refusal status. status ≡ of_replay refusal };

    fn from(refusal: ReplayRefusal) -> Status {
        match refusal {
            ReplayRefusal::NotAllowed { line } => Status::NotAllowed { line },
            ReplayRefusal::Memory => Status::Memory,
        }
    }
}
